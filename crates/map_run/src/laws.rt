//! What the contracts of runs refuse, and what they tell of statuses, of judged reports and of copies, as clauses of functions that
//! do nothing.

ghost use Rattle.map_run.specs.Causes.{FaultsRose, FaultyInputHasCause};
ghost use Rattle.map_run.specs.CopiesKept.{KeepsCopies};
ghost use Rattle.map_run.specs.Judged.{EndsWithYes, RacesPass};
ghost use Rattle.map_run.specs.Linear.{RecordsAreLinearizable, SerialIsLinearizable, YesIsOfOneMap};
ghost use Rattle.map_run.specs.Refusals.{KeptFromATable, LoneCallsByOne, LonePhaseIsWhole};

use record_check::verdict_laws;

/// No run may end with a record that no closed table stands behind, as one that is computed. No phase whose calls are all of one
/// CPU may be run by workers: what they tell isn't what is asked there, and no record of a race has a strand that one of them
/// leaves in such a phase.
pub fn refused_laws()
    ensures kept { KeptFromATable }
    ensures calls { LoneCallsByOne }
    ensures phases { LonePhaseIsWhole }
{}

/// In mode `check` the program ends with status 0 only where `yes` was written, and the report is that of a run of the script that
/// stands before it. Nothing is kept.
pub fn check_law()
    ensures { EndsWithYes }
{}

/// Whatever is said of the report of a race, with its history and its dump, it is that it is right.
pub fn race_law()
    ensures { RacesPass }
{
    verdict_laws();
}

/// Each record whose phases start one behind another is linearizable, and so is that of a run in serial order. A report of which mode
/// `check` says `yes` tells a record whose calls are answered by one plain map; of a script of one phase it is linearizable.
pub fn linear_law()
    ensures records { RecordsAreLinearizable }
    ensures serial { SerialIsLinearizable }
    ensures judged { YesIsOfOneMap }
{}

/// What is kept of a copy is there exactly in mode `copy`, where a record is kept.
pub fn copy_law()
    ensures { KeepsCopies }
{}

/// The program ends with status 1 only where the words are good and the input was read to its end and has a fault, with 3 only where
/// a read failed, and with 4 only where a write or a flush did. So no program may always end so, whatever a source that tells its bytes
/// has.
pub fn cause_law()
    ensures fault { FaultyInputHasCause }
    ensures stopped { FaultsRose }
{}
