//! Where a report goes.

ghost use Rattle.std.specs.Prelude.{◌≤◌, ◌<◌, List, ℕ, Option, length, take, IfOk, OnOk, OnErr};
ghost use Rattle.run_ends.specs.SourceReads.{Rose};
ghost use Rattle.run_ends.specs.Writes.{Written, Adds, Flushes, KeepsBytes};

use map_types::Failed;

/// What takes bytes one after another.
pub trait Sink {
    /// The bytes that were written, and how many of them are flushed, where it tells them.
    ghost written: { Self → Option Written };

    /// How many faults there were. The number never falls.
    ghost faults: { Self → ℕ };

    /// Writes a prefix of the piece, and answers how many bytes. A write that takes nothing of a piece that isn't empty
    /// is a fault.
    fn write(&mut self, piece: &[u8]) -> Result<usize, Failed>
        ensures fits { IfOk result (λ n. n ≤ length piece.now) }
        ensures goes_on { IfOk result (λ n. 0 < length piece.now → 0 < n) }
        ensures added { IfOk result (λ n. Adds (written self.old) (written self.new)
            (take n piece.now)) }
        ensures kept { OnErr result (KeepsBytes (written self.old) (written self.new)) }
        ensures cause { OnErr result (Rose (faults self.old) (faults self.new)) }
        ensures never_falls { faults self.old ≤ faults self.new };

    /// Leaves all that was written flushed.
    fn flush(&mut self) -> Result<(), Failed>
        ensures flushed { OnOk result (Flushes (written self.old) (written self.new)) }
        ensures kept { OnErr result (KeepsBytes (written self.old) (written self.new)) }
        ensures cause { OnErr result (Rose (faults self.old) (faults self.new)) }
        ensures never_falls { faults self.old ≤ faults self.new };
}
