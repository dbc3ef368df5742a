//! Reads the lines of a script, from where those before them lead.

ghost use Rattle.std.specs.Prelude.{◌≡◌, ◌++◌};
ghost use Rattle.map_types.specs.Creation.{IsShape};
ghost use Rattle.map_script.specs.Pieces.{ReadsOn, read_on, spec_script};
ghost use Rattle.map_script.specs.Reading.{spec_of, body_of, map_of, version_of};

use crate::calls::read_calls;
use crate::copied::{read_copied, read_either};
use crate::fault::or_fault;
use crate::head::{gen_line, map_line, no_line, target_line, version_line};
use crate::lines::Lines;
use crate::refusal::ScriptRefusal;
use crate::script::{Form, Script, Target};
use crate::stage::{CallsRead, Copying, Head, Stage};
use map_types::check_attr;
use std::alloc::Global;

/// Reads all lines.
pub(crate) fn read_lines(
    alloc: Global,
    stage: Stage,
    lines: &mut Lines,
) -> Result<Stage, ScriptRefusal>
    ensures reads { ReadsOn (λ end more. read_on stage end (lines.old.lines ++ more)) result }
    ensures end { lines.new.end ≡ lines.old.end }
{
    match stage {
        Stage::Start(form) => read_version(alloc, form, lines),
        Stage::Version(form, version) => read_map(alloc, form, version, lines),
        Stage::Calls(read) => read_calls_on(alloc, read, lines),
        Stage::Map(head) => read_spec(alloc, head, lines),
        Stage::Whole(script) => read_nothing(script, lines),
        Stage::Target(read) => read_target(alloc, read, lines),
        Stage::Copy(copying) => read_copied(alloc, copying, lines),
        Stage::Either(fault) => read_either(fault, lines),
    }
}

/// Reads the version line, and what stands behind it.
fn read_version(alloc: Global, form: Form, lines: &mut Lines) -> Result<Stage, ScriptRefusal>
    ensures reads { ReadsOn (λ end more. version_of form end (lines.old.lines ++ more)) result }
    ensures end { lines.new.end ≡ lines.old.end }
{
    let Some(line) = lines.next_line() else {
        return Ok(Stage::Start(form));
    };
    let version = or_fault(line.number(), version_line(form, &line))?;
    read_map(alloc, form, version, lines)
}

/// Reads the map line, and what stands behind it.
fn read_map(
    alloc: Global,
    form: Form,
    version: u32,
    lines: &mut Lines,
) -> Result<Stage, ScriptRefusal>
    ensures reads { ReadsOn (λ end more. map_of form version end (lines.old.lines ++ more)) result }
    ensures end { lines.new.end ≡ lines.old.end }
{
    let Some(line) = lines.next_line() else {
        return Ok(Stage::Version(form, version));
    };
    let attr = or_fault(line.number(), map_line(&line))?;
    let shape = check_attr(&attr)?;
    let head = Head {
        version,
        attr,
        shape,
    };
    read_body(alloc, form, head, lines)
}

/// Reads what stands behind the map line.
fn read_body(
    alloc: Global,
    form: Form,
    head: Head,
    lines: &mut Lines,
) -> Result<Stage, ScriptRefusal>
    requires { IsShape head.shape }
    ensures reads { ReadsOn (λ end more. body_of form head.version head.attr head.shape end
        (lines.old.lines ++ more)) result }
    ensures end { lines.new.end ≡ lines.old.end }
{
    match form {
        Form::Calls => read_calls_on(alloc, CallsRead::none(alloc, head), lines),
        Form::Generator => read_spec(alloc, head, lines),
        Form::Copy => read_target(alloc, CallsRead::none(alloc, head), lines),
    }
}

/// Reads the target line, and what stands behind it.
fn read_target(alloc: Global, read: CallsRead, lines: &mut Lines) -> Result<Stage, ScriptRefusal>
    ensures reads { ReadsOn (λ end more. read_on (Stage.Target read) end
        (lines.old.lines ++ more)) result }
    ensures end { lines.new.end ≡ lines.old.end }
{
    let Some(line) = lines.next_line() else {
        return Ok(Stage::Target(read));
    };
    let (attr, count) = or_fault(line.number(), target_line(&read.head.attr, &line))?;
    let shape = check_attr(&attr)?;
    let target = Target { attr, shape, count };
    let copying = Copying {
        read,
        target,
        held: None,
    };
    read_copied(alloc, copying, lines)
}

/// Reads calls, behind those that were read.
fn read_calls_on(alloc: Global, read: CallsRead, lines: &mut Lines) -> Result<Stage, ScriptRefusal>
    ensures reads { ReadsOn (λ end more. read_on (Stage.Calls read) end
        (lines.old.lines ++ more)) result }
    ensures end { lines.new.end ≡ lines.old.end }
{
    let read = read_calls(alloc, read, lines)?;
    Ok(Stage::Calls(read))
}

/// Reads the one generator line, behind which no line stands.
fn read_spec(alloc: Global, head: Head, lines: &mut Lines) -> Result<Stage, ScriptRefusal>
    ensures reads { ReadsOn (λ end more. read_on (Stage.Map head) end (lines.old.lines ++ more)) result }
    ensures end { lines.new.end ≡ lines.old.end }
{
    let Some(line) = lines.next_line() else {
        return Ok(Stage::Map(head));
    };
    let spec = or_fault(line.number(), gen_line(&head.shape, &line))?;
    read_nothing(head.with_spec(alloc, spec), lines)
}

/// Finds that no line is left.
fn read_nothing(script: Script, lines: &mut Lines) -> Result<Stage, ScriptRefusal>
    ensures reads { ReadsOn (λ end more. read_on (Stage.Whole script) end
        (lines.old.lines ++ more)) result }
    ensures end { lines.new.end ≡ lines.old.end }
{
    let Some(line) = lines.next_line() else {
        return Ok(Stage::Whole(script));
    };
    Err(no_line(&line))
}
