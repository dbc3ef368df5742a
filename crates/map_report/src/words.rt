//! The words of a report: names of errors, sides, locks and bits.

ghost use Rattle.std.specs.Prelude.{◌≡◌, ◌++◌, OnOk, string_bytes};
ghost use Rattle.map_report.specs.Words.{bit_text, errno_name, lock_name, number_text, side_name};

use crate::piece::Piece;
use map_types::{DomainId, Errno, Side};
use std::alloc::AllocError;

/// The name of an error.
pub fn errno_name(errno: Errno) -> &'static str
    ensures { result.now ≡ errno_name errno }
{
    match errno {
        Errno::Enoent => "enoent",
        Errno::E2big => "e2big",
        Errno::Enomem => "enomem",
        Errno::Eexist => "eexist",
        Errno::Einval => "einval",
        Errno::Enospc => "enospc",
    }
}

/// The name of the side that a call comes from.
pub(crate) fn side_name(side: Side) -> &'static str
    ensures { result.now ≡ side_name side }
{
    match side {
        Side::Prog => "prog",
        Side::Sys => "sys",
    }
}

/// A bit as a digit.
pub(crate) fn bit_text(bit: bool) -> &'static str
    ensures { result.now ≡ bit_text bit }
{
    if bit { "1" } else { "0" }
}

/// Adds the name of a lock.
pub(crate) fn push_lock(text: &mut String, lock: DomainId) -> Result<(), AllocError>
    ensures { OnOk result (string_bytes text.new ≡ string_bytes text.old ++ lock_name lock) }
{
    match lock {
        DomainId::Local(cpu) => push_named(text, "local", cpu),
        DomainId::Global => text.push_str("global"),
        DomainId::CpuLru(cpu) => push_named(text, "lru", cpu),
        DomainId::Bucket(bucket) => push_named(text, "bucket", bucket),
        DomainId::Freelist(cpu) => push_named(text, "freelist", cpu),
    }
}

/// Adds a name and a number.
fn push_named(text: &mut String, name: &str, number: u32) -> Result<(), AllocError>
    ensures { OnOk result (string_bytes text.new
        ≡ string_bytes text.old ++ name.now ++ number_text number) }
{
    text.push_str(name)?;
    number.push_to(text)
}
