//! Laws of the order of turns, as clauses of a function that does nothing.

ghost use Rattle.turn_order.specs.OrderLaws.{InterleavedTo, OneOrder, OrderedOnLocks, OrderedTickets, PickedInOrder};

/// The turns of histories in the order of their tickets: where each ticket was drawn once, the turn at each place has that place as
/// its ticket, the turns of each lock are its history, and no other order is such. The events of the first of them are those with
/// which the events of all begin.
pub fn order_laws()
    ensures tickets { OrderedTickets }
    ensures on_locks { OrderedOnLocks }
    ensures one { OneOrder }
    ensures picked { PickedInOrder }
    ensures to { InterleavedTo }
{}
