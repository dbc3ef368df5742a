//! The strands that a pass keeps once they have ended, and the logs of all its strands.

ghost use Rattle.std.specs.Prelude.{◌≡◌, ◌++◌, ◌∷◌, IfSome, List, []};
ghost use Rattle.place_table.specs.declared.view.Ended.{Ended};
ghost use Rattle.map_types.specs.declared.attr.Shape.{Shape};
ghost use Rattle.place_words.specs.StrandSteps.{steps_made};
ghost use Rattle.place_table.specs.Logged.{AreLogsOf, HaveLogs, IsLogOf};
ghost use Rattle.place_table.specs.Passes.{flags_of, AreFinished};

use place_words::{LoggedTurn, StepBuffer, StrandSteps};
use std::alloc::Global;

/// What is kept of the turns of a pass, beside the steps of its current strand.
#[derive(Drop)]
pub(crate) struct TurnsMade {
    /// The turns of buckets in the current strand.
    pub(crate) log: Vec<LoggedTurn>,
    /// The strands that have ended, none once memory for one wasn't found.
    pub(crate) ended: Option<Vec<FinishedStrand>>,
    /// Of each strand that has ended its log, none once memory for one wasn't found.
    pub(crate) logs: Option<Vec<Vec<LoggedTurn>>>,
}

/// A strand that has ended and a step of which is recorded: whether it has each CPU, and these steps.
#[derive(Drop)]
pub(crate) struct FinishedStrand {
    pub(crate) cpus: [bool; 16],
    pub(crate) steps: StrandSteps,
}

/// No turn yet, with this room for turns of buckets.
pub(crate) fn none_made(alloc: Global, log: Vec<LoggedTurn>) -> TurnsMade
    requires { log.items ≡ [] }
    ensures log { result.log.items ≡ [] }
    ensures ended { AreFinished [] result.ended }
    ensures logs { (shape : Shape) → HaveLogs shape [] result.logs }
{
    TurnsMade {
        log,
        ended: Some(Vec::new(alloc)),
        logs: Some(Vec::new(alloc)),
    }
}

/// The strand under way ends, which has these CPUs and steps, and with it its log. A new log begins.
pub(crate) fn end_strand(
    alloc: Global,
    made: TurnsMade,
    cpus: &[bool; 16],
    steps: StepBuffer,
) -> TurnsMade
    ensures log { result.log.items ≡ [] }
    ensures ended { (strands : List Ended) (last : Ended) → AreFinished strands made.ended
        → cpus.now ≡ flags_of last.cpus → steps_made steps ≡ last.kept
        → AreFinished (strands ++ last ∷ []) result.ended }
    ensures logs { (shape : Shape) (strands : List Ended) (last : Ended)
        → HaveLogs shape strands made.logs
        → IsLogOf shape last.steps last.kept made.log.items
        → HaveLogs shape (strands ++ last ∷ []) result.logs }
{
    let TurnsMade { log, ended, logs } = made;
    TurnsMade {
        log: Vec::new(alloc),
        ended: finish(ended, cpus, steps),
        logs: with_log(logs, log),
    }
}

/// The strands of two passes that have ended, with their logs, and no turn in a current one.
pub(crate) fn join_made(ours: TurnsMade, theirs: TurnsMade) -> TurnsMade
    requires { (ours.log.items ≡ []) × (theirs.log.items ≡ []) }
    ensures log { result.log.items ≡ [] }
    ensures ended { (first second : List Ended) → AreFinished first ours.ended
        → AreFinished second theirs.ended → AreFinished (first ++ second) result.ended }
    ensures logs { (shape : Shape) (first second : List Ended) → HaveLogs shape first ours.logs
        → HaveLogs shape second theirs.logs → HaveLogs shape (first ++ second) result.logs }
{
    let TurnsMade { log, ended, logs } = ours;
    TurnsMade {
        log,
        ended: put_together(ended, theirs.ended),
        logs: logs_together(logs, theirs.logs),
    }
}

/// The strands and the logs of all of them, where both are there; else no strands, and no logs.
pub(crate) fn ended_told(
    alloc: Global,
    made: TurnsMade,
) -> (Option<Vec<FinishedStrand>>, Vec<Vec<LoggedTurn>>)
    ensures ended { (strands : List Ended) → AreFinished strands made.ended
        → AreFinished strands result.0 }
    ensures logs { (shape : Shape) (strands : List Ended) → HaveLogs shape strands made.logs
        → IfSome result.0 (λ _. AreLogsOf shape strands result.1.items) }
{
    let TurnsMade { ended, logs, .. } = made;
    match (ended, logs) {
        (Some(ended), Some(logs)) => (Some(ended), logs),
        _ => (None, Vec::new(alloc)),
    }
}

/// The logs of strands, with one more. Where there were none, or there is no memory for it, there are none from then on.
fn with_log(
    logs: Option<Vec<Vec<LoggedTurn>>>,
    log: Vec<LoggedTurn>,
) -> Option<Vec<Vec<LoggedTurn>>>
    ensures { (shape : Shape) (strands : List Ended) (last : Ended) → HaveLogs shape strands logs
        → IsLogOf shape last.steps last.kept log.items
        → HaveLogs shape (strands ++ last ∷ []) result }
{
    let mut logs = logs?;
    if logs.reserve(1).is_err() {
        return None;
    }
    logs.push_reserved(log);
    Some(logs)
}

/// The logs of two passes. Where one has none, or there is no memory for all, there are none from then on.
fn logs_together(
    ours: Option<Vec<Vec<LoggedTurn>>>,
    theirs: Option<Vec<Vec<LoggedTurn>>>,
) -> Option<Vec<Vec<LoggedTurn>>>
    ensures { (shape : Shape) (first second : List Ended) → HaveLogs shape first ours
        → HaveLogs shape second theirs → HaveLogs shape (first ++ second) result }
{
    let mut ours = ours?;
    let mut theirs = theirs?;
    if ours.append(&mut theirs).is_err() {
        return None;
    }
    Some(ours)
}

/// The strands that have ended, with one more. One with no recorded step isn't kept. Where there were none, or there is no
/// memory for it, there are none from then on.
fn finish(
    ended: Option<Vec<FinishedStrand>>,
    cpus: &[bool; 16],
    steps: StepBuffer,
) -> Option<Vec<FinishedStrand>>
    ensures { (strands : List Ended) (last : Ended) → AreFinished strands ended
        → cpus.now ≡ flags_of last.cpus → steps_made steps ≡ last.kept
        → AreFinished (strands ++ last ∷ []) result }
{
    if steps.is_empty() {
        return ended;
    }
    let mut ended = ended?;
    if ended.reserve(1).is_err() {
        return None;
    }
    ended.push_reserved(FinishedStrand {
        cpus: *cpus,
        steps: StrandSteps::of(steps),
    });
    Some(ended)
}

/// The strands of two passes that have ended. Where one has none, or there is no memory for all, there are none from then on.
fn put_together(
    ours: Option<Vec<FinishedStrand>>,
    theirs: Option<Vec<FinishedStrand>>,
) -> Option<Vec<FinishedStrand>>
    ensures { (first second : List Ended) → AreFinished first ours → AreFinished second theirs
        → AreFinished (first ++ second) result }
{
    let mut ours = ours?;
    let mut theirs = theirs?;
    if ours.append(&mut theirs).is_err() {
        return None;
    }
    Some(ours)
}
