//! Points of a run at which a CPU may be held, for tests of races.

use crate::DomainId;

/// A point of a CPU's way through its calls, in a race and in serial order. The numbers are those of calls, from 1.
#[derive(Clone, Copy, Debug, PartialEq, Eq)]
pub enum Point {
    /// The call begins.
    Begin(u32),
    /// The lock was taken.
    Took(DomainId),
    /// The lock was given back.
    Gave(DomainId),
    /// The call is done.
    Done(u32),
}

/// What a CPU passes at each point. It has no meaning in any contract.
pub trait Gate: Sync {
    /// This CPU is at this point. It may be kept there for a while.
    fn at(&self, cpu: u32, point: Point);
}

/// Holds nobody.
#[derive(Clone, Copy, Debug, PartialEq, Eq)]
pub struct NoGate;

impl Gate for NoGate {
    fn at(&self, _cpu: u32, _point: Point) {}
}
