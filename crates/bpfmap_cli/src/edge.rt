//! Standard input and output as a source and a sink. Nothing is told of their bytes.

ghost use Rattle.std.specs.Prelude.{◌≡◌, ◌≤◌, ◌+◌, ◌-◌, ◌^◌, min, None};

use map_run::{Sink, Source};
use map_types::Failed;
use std::io::{Read, Write};

/// Counts a fault. The count stands still at 2^64 - 1.
fn count_fault(faults: &mut u64) -> Failed
    ensures counted { faults.new ≡ min (faults.old + 1) (2 ^ 64 - 1) }
    ensures never_falls { faults.old ≤ faults.new }
{
    *faults = faults.saturating_add(1);
    Failed
}

/// A reader as a source. Each error of the reader is a fault.
#[derive(Drop)]
pub struct StdinSource<I: Read + Drop> {
    input: I,
    faults: u64,
}

impl<I: Read + Drop> StdinSource<I> {
    pub fn new(input: I) -> StdinSource<I> {
        StdinSource { input, faults: 0 }
    }
}

impl<I: Read + Drop> Source for StdinSource<I> {
    ghost left = { λ _. None };

    ghost faults = { λ s. s.faults };

    fn read(&mut self, buf: &mut [u8]) -> Result<usize, Failed> {
        match self.input.read(buf) {
            Ok(count) => Ok(count),
            Err(_) => Err(count_fault(&mut self.faults)),
        }
    }
}

/// A writer as a sink. Each error of the writer is a fault, and so is a write that takes nothing.
#[derive(Drop)]
pub struct StdoutSink<O: Write + Drop> {
    output: O,
    faults: u64,
}

impl<O: Write + Drop> StdoutSink<O> {
    pub fn new(output: O) -> StdoutSink<O> {
        StdoutSink { output, faults: 0 }
    }
}

impl<O: Write + Drop> Sink for StdoutSink<O> {
    ghost written = { λ _. None };

    ghost faults = { λ s. s.faults };

    fn write(&mut self, piece: &[u8]) -> Result<usize, Failed> {
        match self.output.write(piece) {
            Ok(count) if count > 0 || piece.is_empty() => Ok(count),
            _ => Err(count_fault(&mut self.faults)),
        }
    }

    fn flush(&mut self) -> Result<(), Failed> {
        match self.output.flush() {
            Ok(()) => Ok(()),
            Err(_) => Err(count_fault(&mut self.faults)),
        }
    }
}
