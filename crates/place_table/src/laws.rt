//! Laws of the table.

ghost use Rattle.place_table.specs.Laws.{TakeIsStep, GiveIsStep, GiveLeadsOn, ClaimIsStep, SettleIsStep, AttachIsStep, DetachIsStep, RehomeIsStep, MarkIsStep, ClearIsStep, GlanceIsStep, TicketIsNoStep, SplitIsNoStep, JoinIsNoStep};
ghost use Rattle.place_table.specs.Refusals.{TellsTrue, MarkStores, ClearStores, LooksAtItsBit, LooksAtItsOwner, TellsTurns, KeepsTurns, DrawsOne, DrawsFromItsWord, GivesWhatWasDrawn};

/// Each operation on a word of a table is the step of the core that has its name: whatever the table is when it happens,
/// if the rule holds before it, it holds after it, and what the words and contents are read as has gone on by that step.
/// A try of a lock that somebody holds changes nothing. A look at the ticket word, the draw of a ticket, splitting a pass and
/// joining two are no steps of the core, and the rule holds before and after them. What is given back with a lock is what an allowed
/// turn makes of what lay there when it was taken, whether that turn is recorded or not.
pub fn word_laws()
    ensures take { TakeIsStep }
    ensures give { GiveIsStep }
    ensures leads { GiveLeadsOn }
    ensures claim { ClaimIsStep }
    ensures settle { SettleIsStep }
    ensures attach { AttachIsStep }
    ensures detach { DetachIsStep }
    ensures rehome { RehomeIsStep }
    ensures mark { MarkIsStep }
    ensures clear { ClearIsStep }
    ensures glance { GlanceIsStep }
    ensures ticket { TicketIsNoStep }
    ensures split { SplitIsNoStep }
    ensures join { JoinIsNoStep }
{}

/// What a pass tells of a step on a word is so, in every table and every pass: what it saw was in the word, and what it left is
/// there after it. So no table allows a mark that stores nothing, a clear that only loads, or another word's reading told as
/// a bit's or an owner's; nor local lists told as a home with another number of turns than their lock had when it was read, nor a
/// look at a home kept with another one; nor a draw of a ticket that adds another number than 1, or from another word, nor a turn
/// that is recorded with another ticket than the one that was drawn before its lock is given back.
pub fn told_laws()
    ensures told { TellsTrue }
    ensures mark { MarkStores }
    ensures clear { ClearStores }
    ensures bit { LooksAtItsBit }
    ensures owner { LooksAtItsOwner }
    ensures home { TellsTurns }
    ensures homes { KeepsTurns }
    ensures draw { DrawsOne }
    ensures draw_there { DrawsFromItsWord }
    ensures give { GivesWhatWasDrawn }
{}
