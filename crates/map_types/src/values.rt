//! How long a value is, as a program and as the system call see it.

ghost use Rattle.std.specs.Prelude.{◌≡◌, ◌*◌, ◌≤◌, if◌then◌else◌};
ghost use Rattle.map_types.specs.Creation.{IsShape};
ghost use Rattle.map_types.specs.Kind.{is_percpu};
ghost use Rattle.map_types.specs.ValueLen.{round8, value_len_of};

use crate::{MapKind, Shape, Side};

/// The bytes of a value of a map, as this side gives and gets it: for the system call, on a kind that has a value for
/// each CPU, those of all CPUs in turn, each rounded up to a multiple of 8 bytes. At most 65,536. The rule is that of
/// the kernel's `bpf_map_value_size`.
pub fn value_len(shape: &Shape, side: Side) -> u32
    requires { IsShape shape.now }
    ensures { result ≡ value_len_of shape.now side }
{
    match side {
        Side::Prog => shape.value_size,
        Side::Sys => sys_value_len(shape.kind, shape.cpus, shape.value_size),
    }
}

/// The bytes of a value for the system call.
pub(crate) fn sys_value_len(kind: MapKind, cpus: u32, value_size: u32) -> u32
    requires few { cpus ≤ 16 }
    requires short { value_size ≤ 4096 }
    ensures { result ≡ (if is_percpu kind then cpus * round8 value_size else value_size) }
{
    if kind.is_percpu() {
        cpus * value_size.next_multiple_of(8)
    } else {
        value_size
    }
}
