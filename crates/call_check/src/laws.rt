//! The laws of what is judged of calls, as clauses of a function that does nothing.

ghost use Rattle.call_check.specs.CallLaws.{CallsMakeRecords, CallsOfRecords, SparesOfRecords};

/// Each call of a record is right, and a record's last spares are those that its replacements left. Where all parts are right, and
/// tickets are, it is a record.
pub fn call_laws()
    ensures calls { CallsOfRecords }
    ensures spares { SparesOfRecords }
    ensures records { CallsMakeRecords }
{}
