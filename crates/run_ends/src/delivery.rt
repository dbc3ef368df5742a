//! Writes a text whole.

ghost use Rattle.std.specs.Prelude.{◌≤◌, OnOk, OnErr};
ghost use Rattle.run_ends.specs.SourceReads.{Rose};
ghost use Rattle.run_ends.specs.Writes.{AddsWhole, AddsPrefix};

use crate::Sink;
use map_types::Failed;

/// Writes the whole text and flushes it. Nothing is called after a failure, and a prefix of the text is written then.
pub fn deliver<K: Sink>(sink: &mut K, text: &[u8]) -> Result<(), Failed>
    ensures whole { OnOk result (AddsWhole (K.written sink.old) (K.written sink.new) text.now) }
    ensures prefix { OnErr result (AddsPrefix (K.written sink.old) (K.written sink.new) text.now) }
    ensures cause { OnErr result (Rose (K.faults sink.old) (K.faults sink.new)) }
    ensures never_falls { K.faults sink.old ≤ K.faults sink.new }
{
    let mut done = 0;
    while done < text.len() {
        done += sink.write(&text[done..])?;
    }
    sink.flush()
}
