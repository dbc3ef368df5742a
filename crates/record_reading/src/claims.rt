//! Laws of reading a report, as clauses of a function that does nothing.

ghost use Rattle.record_reading.specs.ReadingLaws.{OneRecordEach, ReadsBack, ReadsEach, ReadsRight, RefusesAtFault};

/// Of each well-formed script: the text of a well-shaped record is read as that record, and no other record has this text.
/// What is read is a well-shaped record, whose text it is. Any other text has a line at fault. So `read_record` answers of
/// a well-shaped record's text that record, where memory is found.
pub fn reading_laws()
    ensures each { ReadsEach }
    ensures right { ReadsRight }
    ensures fault { RefusesAtFault }
    ensures one { OneRecordEach }
    ensures back { ReadsBack }
{}
