//! The laws of tickets, as clauses of a function that does nothing.

ghost use Rattle.record_order.specs.TicketLaws.{RecordsNameEntries, WhereNoneIsWrong, WholeRecordsNameEntries};

/// Tickets are as a record has them exactly where none is wrong, and the steps of a record name its entries.
pub fn ticket_laws()
    ensures exact { WhereNoneIsWrong }
    ensures named { RecordsNameEntries }
    ensures whole { WholeRecordsNameEntries }
{}
