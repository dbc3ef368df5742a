//! Laws of runs, as clauses of functions that do nothing.

ghost use Rattle.map_report.specs.Record.{IsRecord, StartsRise};
ghost use Rattle.map_report.specs.Runs.{serial};
ghost use Rattle.map_script.specs.declared.script.Script as scripts;
ghost use Rattle.map_script.specs.WellFormed.{IsWellFormed};
ghost use Rattle.serial_laws.specs.Laws.{SerialLaws};
ghost use Rattle.serial_laws.specs.Served.{IsScript, SuitsItsMap};

/// Every run in serial order of a script, of a map of any kind and with all calls, is a record of the script, in which the tickets of
/// the starts of phases never fall.
pub fn record_laws()
    ensures record { (script : scripts.Script) → IsWellFormed script → IsRecord script (serial script) }
    ensures starts { (script : scripts.Script) → IsWellFormed script → StartsRise (serial script) }
{}

/// The laws of serial runs hold of each script whose calls are for its map, in phases, and so of each that is run.
pub fn serial_laws()
    ensures suited { (script : scripts.Script) → SuitsItsMap script → SerialLaws script }
    ensures run { (script : scripts.Script) → IsScript script → SerialLaws script }
{}
