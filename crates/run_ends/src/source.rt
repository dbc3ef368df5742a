//! Where a script comes from.

ghost use Rattle.std.specs.Prelude.{◌≤◌, List, [], ℕ, Option, length, take, IfOk, OnErr};
ghost use Rattle.run_ends.specs.SourceReads.{Rose, TakesFront, EndsWhereNoneIsLeft};

use map_types::Failed;

/// Bytes that are read once, from their front.
pub trait Source {
    /// The bytes that are left, where it tells them.
    ghost left: { Self → Option (List ℕ) };

    /// How many faults there were. The number never falls.
    ghost faults: { Self → ℕ };

    /// Takes the next bytes into the front of the buffer, and answers how many. 0 with a buffer that has room is the
    /// end. A read that fails takes nothing.
    fn read(&mut self, buf: &mut [u8]) -> Result<usize, Failed>
        ensures fits { IfOk result (λ n. n ≤ length buf.old) }
        ensures taken { IfOk result (λ n. TakesFront (left self.old) (left self.new)
            (take n buf.new)) }
        ensures end { IfOk result (λ n. EndsWhereNoneIsLeft (left self.old) (length buf.old) n) }
        ensures kept { OnErr result (TakesFront (left self.old) (left self.new) []) }
        ensures cause { OnErr result (Rose (faults self.old) (faults self.new)) }
        ensures never_falls { faults self.old ≤ faults self.new };
}
