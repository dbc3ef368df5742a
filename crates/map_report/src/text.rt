//! The text of a report.

ghost use Rattle.std.specs.Prelude.{◌≡◌, [], ◌++◌, IfOk, OnOk, string_bytes, if◌then◌else◌};
ghost use Rattle.std.specs.List.{flat_map};
ghost use Rattle.map_report.specs.Dump.{dump_lines};
ghost use Rattle.map_report.specs.History.{history_lines};
ghost use Rattle.map_report.specs.Text.{ended, map_line, report, shape_line, told_lines};
ghost use Rattle.map_report.specs.Words.{number_text};

use crate::dump::add_dump;
use crate::history::add_history;
use crate::lines::{Lines, add_numbered};
use crate::piece::Piece;
use crate::{Options, RunRecord};
use map_script::{Script, kind_name};
use map_types::{NoMemory, Shape};
use place_words::Finals;
use std::alloc::{AllocError, Global};

/// What is printed of a run: a line for the map, a numbered line for each reply, what happened under each lock and what
/// the map holds at the end where that is asked for, and `end`. `options.json` is not looked at. It fails only where
/// memory does.
#[tactic(auto, unfolding(crate::specs::Text::report))]
pub fn text_of(
    alloc: Global,
    script: &Script,
    kept: &RunRecord,
    options: Options,
) -> Result<Vec<u8>, NoMemory>
    ensures { IfOk result (λ text. text.items ≡ report script.now kept.now options) }
{
    let mut text = String::new(alloc);
    add_told(&mut text, script, kept, options)?;
    text.push_str("end\n")?;
    Ok(text.into_bytes())
}

/// Adds the lines of a report but the last one, `end`. `options.json` is not looked at.
pub fn add_told(
    text: &mut String,
    script: &Script,
    kept: &RunRecord,
    options: Options,
) -> Result<(), AllocError>
    ensures { OnOk result (string_bytes text.new
        ≡ string_bytes text.old ++ flat_map ended (told_lines script.now kept.now options)) }
{
    text.add(&script.shape)?;
    add_numbered(text, 1, kept.replies.as_slice())?;
    add_history_if(text, script.version, kept, options.history)?;
    add_dump_if(text, &script.shape, &kept.finals, options.dump)
}

/// Adds what happened, if that is asked for, of a script of this version.
pub fn add_history_if(
    text: &mut String,
    version: u32,
    kept: &RunRecord,
    asked: bool,
) -> Result<(), AllocError>
    ensures { OnOk result (string_bytes text.new
        ≡ string_bytes text.old ++ flat_map ended (if asked then history_lines version kept.now else [])) }
{
    if asked {
        add_history(text, version, kept)
    } else {
        Ok(())
    }
}

/// Adds what the map holds, if that is asked for.
pub fn add_dump_if(
    text: &mut String,
    shape: &Shape,
    finals: &Finals,
    asked: bool,
) -> Result<(), AllocError>
    ensures { OnOk result (string_bytes text.new
        ≡ string_bytes text.old
        ++ flat_map ended (if asked then dump_lines shape.now finals.now else [])) }
{
    if asked {
        add_dump(text, shape, finals)
    } else {
        Ok(())
    }
}

/// `map KIND capacity N elements N buckets N`
impl Piece for Shape {
    ghost shown = { map_line };

    fn push_to(&self, text: &mut String) -> Result<(), AllocError> {
        push_shape(text, "map ", self)
    }
}

/// Adds a word, and the kind and the sizes of a map: `KIND capacity N elements N buckets N`.
pub fn push_shape(text: &mut String, word: &str, shape: &Shape) -> Result<(), AllocError>
    ensures { OnOk result (string_bytes text.new
        ≡ string_bytes text.old ++ shape_line word.now shape.now) }
{
    text.push_str(word)?;
    text.push_str(kind_name(shape.kind))?;
    push_labelled(text, " capacity", shape.capacity)?;
    push_labelled(text, " elements", shape.elements)?;
    push_labelled(text, " buckets", shape.buckets)
}

/// Adds a label and a number.
fn push_labelled(text: &mut String, label: &str, number: u32) -> Result<(), AllocError>
    ensures { OnOk result (string_bytes text.new
        ≡ string_bytes text.old ++ label.now ++ number_text number) }
{
    text.push_str(label)?;
    number.push_to(text)
}
