//! Rounds over the CPUs, and the CPU after each.

ghost use Rattle.std.specs.Prelude.{◌<◌};

use steal_ring::{Ring, ring_next};

/// A CPU, the number of CPUs, the round that starts there, and the CPU after it.
struct Case {
    start: u32,
    cpus: u32,
    round: &'static [u32],
    next: u32,
}

static CASES: [Case; 4] = [
    Case {
        start: 0,
        cpus: 1,
        round: &[0],
        next: 0,
    },
    Case {
        start: 0,
        cpus: 4,
        round: &[0, 1, 2, 3],
        next: 1,
    },
    Case {
        start: 2,
        cpus: 4,
        round: &[2, 3, 0, 1],
        next: 3,
    },
    Case {
        start: 3,
        cpus: 4,
        round: &[3, 0, 1, 2],
        next: 0,
    },
];

/// Whether a round gives these CPUs in their order, and then none.
fn gives(mut round: Ring, cpus: &[u32]) -> bool {
    for cpu in cpus {
        if round.next() != Some(*cpu) {
            return false;
        }
    }
    round.next().is_none()
}

/// Whether the round from a CPU and the CPU after it are as they are to be.
fn is_right(case: &Case) -> bool {
    case.start < case.cpus
        && gives(Ring::of(case.start, case.cpus), case.round)
        && ring_next(case.start, case.cpus) == case.next
}

/// The first case that is not right.
fn wrong_round(cases: &[Case]) -> Option<usize> {
    cases.iter().position(|case| !is_right(case))
}

#[test]
fn rounds(rt: HostRuntime) {
    assert_eq!(rt; wrong_round(&CASES), None);
}
