//! The step on the home of an element, by the seat of a pass: it goes from the lists of a lock, or from a hand that carries
//! it, to others.

ghost use Rattle.std.specs.Prelude.{◌≡◌, ◌<◌, true, IsTrue};
ghost use Rattle.place_words.specs.declared.home.Home as homes;
ghost use Rattle.place_words.specs.Codes.{HasHomeCode};
ghost use Rattle.place_table.specs.Views.{is_among};
ghost use Rattle.place_table.specs.Words.{word_count, home_word};
ghost use Rattle.map_types.specs.Kind.{is_lru};
ghost use Rattle.place_table.specs.declared.view.Ticket.TheVariants.{Unread};
ghost use Rattle.place_table.specs.Owners.{IsUnchangedAround};
ghost use Rattle.place_table.specs.Plays.{IsKnownHome, MayGoHome, Rehomes};

use crate::rule::{Rehoming, SharedTable, TableSeat, Way};
use place_words::{Home, home_code};

/// Takes an element from the home that it has to the head of another, on a map whose CPUs share its lists.
pub(crate) fn rehome_word<N: Way>(
    shared: &SharedTable,
    seat: &mut TableSeat,
    element: u32,
    word: usize,
    to: Home,
    cpu: u32,
)
    requires table { seat.old.table_id ≡ shared.now.table_id }
    requires words { (shared.now.table_id.words ≡ word_count shared.now.key)
        × (word ≡ home_word shared.now.key element) }
    requires way { (N.element ≡ element) × (N.to ≡ to) }
    requires code { HasHomeCode to }
    requires element { IsTrue shared.now.key.common × (element < shared.now.key.elements) }
    requires cpu { is_among cpu seat.old.me.0.cpus ≡ true }
    requires home { (from : homes.Home)
        × IsKnownHome shared.now.key seat.old.me.0 cpu element from }
    requires goes { MayGoHome shared.now.key seat.old.me.0 cpu element to }
    requires unread { seat.old.me.0.ticket ≡ Unread }
    requires around { IsTrue (is_lru shared.now.key.kind)
        → IsUnchangedAround seat.old.me.0 element }
    ensures seat { (seat.new.table_id ≡ seat.old.table_id) × (seat.new.id ≡ seat.old.id) }
    ensures rehomed { Rehomes element to seat.old.me seat.new.me }
{
    // Only the clauses name these.
    let _ = element;
    let _ = cpu;
    shared.store::<Rehoming<N>>(seat, word, home_code(to));
}
