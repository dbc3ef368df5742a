//! How far the lines of a script were read.

ghost use Rattle.std.specs.Prelude.{◌≡◌, [], None, Ok, Err};
ghost use Rattle.map_types.specs.Creation.{IsShape};
ghost use Rattle.map_script.specs.CallsSoFar.{calls_of};
ghost use Rattle.map_script.specs.CopySoFar.{copied_of, unless_held};
ghost use Rattle.map_script.specs.Pieces.{spec_script, read_on};
ghost use Rattle.map_script.specs.Reading.{script_of};

use crate::refusal::{Cause, ScriptRefusal};
use crate::script::{Form, GenSpec, Script, Target};
use map_types::{Call, CreateAttr, List, Shape};
use std::alloc::Global;
use std::marker::Model;

/// What the lines that were read lead to.
#[derive(Drop)]
pub(crate) enum Stage {
    /// The version line is due.
    Start(Form),
    /// The map line is due, in this version.
    Version(Form, u32),
    /// Calls are due, behind those that were read.
    Calls(CallsRead),
    /// The generator line is due.
    Map(Head),
    /// No line is due: the generator line was read.
    Whole(Script),
    /// The target line is due.
    Target(CallsRead),
    /// Calls are due, behind those that were read, of a map that is copied.
    Copy(Copying),
    /// A line that begins a phase, or the end of the text, tells which of two faults it is.
    Either(EitherFault),
}

/// What the version line and the map line say.
#[derive(Clone, Copy)]
pub(crate) struct Head {
    pub(crate) version: u32,
    pub(crate) attr: CreateAttr,
    pub(crate) shape: Shape,
}

/// A script without its target, with the calls that were read so far.
#[derive(Drop)]
pub(crate) struct CallsRead {
    pub(crate) head: Head,
    pub(crate) calls: Vec<Call>,
    /// How many calls stand before each line that starts a phase.
    pub(crate) cuts: Vec<u32>,
    /// How many bytes the replies to the calls may have.
    pub(crate) room: u64,
}

/// A script of form Copy, with the calls that were read so far.
#[derive(Drop)]
pub(crate) struct Copying {
    pub(crate) read: CallsRead,
    pub(crate) target: Target,
    /// The line of the first call of CPU 0 in the phase that was begun last so far. It is a fault unless another phase begins.
    pub(crate) held: Option<u32>,
}

/// A call of CPU 0, and a fault behind it in the same phase. The first fault is the second of them where a line behind the call
/// begins a phase, and else it is the call.
#[derive(Clone, Copy)]
pub(crate) struct EitherFault {
    /// The line of the call of CPU 0.
    pub(crate) copier: u32,
    pub(crate) line: u32,
    pub(crate) cause: Cause,
}

impl Model for CallsRead {
    ghost use Rattle.std.specs.Prelude.{length, None};
    ghost use Rattle.map_types.specs.Creation.{IsShape};
    ghost use Rattle.map_script.specs.declared.script.Script.{Script};
    ghost use Rattle.map_script.specs.CallsSoFar.{AreWithin};
    ghost use Rattle.map_script.specs.Reading.{script_of};

    ghost Value = { Script };

    ghost view = { λ read. script_of read.head.version read.head.attr read.head.shape
        read.calls.items read.cuts.items None };

    ghost invariant = { λ read. AreWithin read.head.shape read.calls.items read.room };
}

impl CallsRead {
    /// No call yet.
    pub(crate) fn none(alloc: Global, head: Head) -> CallsRead
        requires { IsShape head.shape }
        ensures { result ≡ script_of head.version head.attr head.shape [] [] None }
    {
        CallsRead {
            head,
            calls: Vec::new(alloc),
            cuts: Vec::new(alloc),
            room: 0,
        }
    }

    /// The script, where no line is left.
    fn script(self) -> Script
        ensures { calls_of self [] ≡ Ok result }
    {
        let CallsRead {
            head,
            calls,
            cuts,
            ..
        } = self;
        let Head {
            version,
            attr,
            shape,
        } = head;
        Script {
            version,
            attr,
            shape,
            calls: List::of(calls),
            cuts: List::of(cuts),
            spec: None,
            target: None,
        }
    }
}

impl CallsRead {
    /// The script with a target, where no line is left.
    fn with_target(self, target: Target) -> Script
        ensures { copied_of self target [] ≡ Ok result }
    {
        let CallsRead {
            head,
            calls,
            cuts,
            ..
        } = self;
        let Head {
            version,
            attr,
            shape,
        } = head;
        Script {
            version,
            attr,
            shape,
            calls: List::of(calls),
            cuts: List::of(cuts),
            spec: None,
            target: Some(target),
        }
    }
}

impl Copying {
    /// The script, where no line is left, or the fault of a call of CPU 0.
    fn script(self) -> Result<Script, ScriptRefusal>
        ensures { result ≡ unless_held self.held [] (copied_of self.read self.target []) }
    {
        let Copying { read, target, held } = self;
        match held {
            Some(line) => end_fault(line, Cause::Copier),
            None => Ok(read.with_target(target)),
        }
    }
}

impl Head {
    /// A script of form Generator.
    pub(crate) fn with_spec(self, alloc: Global, spec: GenSpec) -> Script
        ensures { result ≡ spec_script self spec }
    {
        let Head {
            version,
            attr,
            shape,
        } = self;
        Script {
            version,
            attr,
            shape,
            calls: List::of(Vec::new(alloc)),
            cuts: List::of(Vec::new(alloc)),
            spec: Some(spec),
            target: None,
        }
    }
}

/// The script, where no line is left, or the fault at the end, which has this number.
#[tactic(auto, unfolding(crate::specs::Reading::version_of, crate::specs::Reading::map_of))]
pub(crate) fn ended(stage: Stage, end: u32) -> Result<Script, ScriptRefusal>
    ensures { result ≡ read_on stage end [] }
{
    match stage {
        Stage::Start(_) => end_fault(end, Cause::Version),
        Stage::Version(..) => end_fault(end, Cause::Map),
        Stage::Map(_) => end_fault(end, Cause::Gen),
        Stage::Calls(calls) => Ok(calls.script()),
        Stage::Whole(script) => Ok(script),
        Stage::Target(_) => end_fault(end, Cause::Target),
        Stage::Copy(copying) => copying.script(),
        Stage::Either(fault) => end_fault(fault.copier, Cause::Copier),
    }
}

/// A fault that is told at the end of the text.
fn end_fault(line: u32, cause: Cause) -> Result<Script, ScriptRefusal>
    ensures { result ≡ Err (ScriptRefusal.Fault line cause) }
{
    Err(ScriptRefusal::Fault { line, cause })
}
