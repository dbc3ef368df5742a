//! The second part of a shrink: the walk that spares none.

ghost use Rattle.std.specs.Prelude.{◌≡◌, ℕ, ◌-◌, ◌≤◌, length, Some};
ghost use Rattle.place_words.specs.Shrinking.{forced_rows};
ghost use Rattle.map_types.specs.declared.row.Row as row_record;
ghost use Rattle.lru_lists.specs.Sets.{IsSet, row_on, rows_of, listed, times_listed};
ghost use Rattle.lru_shrink.specs.Asking.{LeavesBut, terms_of};
ghost use Rattle.lru_shrink.specs.Shrunk.{TriesPart};

use crate::search::search_all;
use lru_lists::{ListName, ListSet, Noted, Probe};
use percpu_values::BodyStack;
use place_words::Try;
use row_list::Rows;

/// Tries all of inactive, or all of active where inactive is empty, from the tail, up to the first element that is removed.
/// Answers how many were.
pub fn forced<R: Rows, P: Probe>(
    set: &mut ListSet<R>,
    probe: &mut P,
    out: &mut BodyStack,
    notes: &mut Noted<Try>,
) -> u32
    requires room { 1 ≤ length (forced_rows (listed set.old)) → 1 ≤ out.old.spare }
    requires noted { P.can_note probe.old (length (forced_rows (listed set.old))) }
    requires probed { (row : row_record.Row) → row_on row.element set.old ≡ Some row
        → P.may_probe probe.old row }
    ensures part { TriesPart (P.gives probe.new)
        (record {
          set = set.old;
          out = out.old;
          notes = notes.old;
          asked = record { calls = P.calls probe.old; probes = P.probes probe.old };
        })
        (record {
          set = set.new;
          out = out.new;
          notes = notes.new;
          asked = record { calls = P.calls probe.new; probes = P.probes probe.new };
        }) result }
    ensures calls { P.calls probe.new ≡ P.calls probe.old }
    ensures whole { IsSet set.new }
    ensures only { LeavesBut
        (terms_of P.can_note P.may_ask P.may_probe P.gives P.lender)
        (λ e. times_listed e set.new ≡ times_listed e set.old)
        (length (P.probes probe.new) - length (P.probes probe.old)) probe.old probe.new }
{
    let list = forced_list(set);
    let Some(body) = search_all(set.rows(list), probe, notes) else {
        return 0;
    };
    // Its row isn't asked for again: the element goes on in its body.
    let _ = set.take_off(body.body().element());
    out.push(body);
    1
}

/// The list that a forced shrink walks.
fn forced_list<R: Rows>(set: &ListSet<R>) -> ListName
    ensures { rows_of result set.now ≡ forced_rows (listed set.now) }
{
    if set.rows(ListName::Inactive).len() == 0 {
        ListName::Active
    } else {
        ListName::Inactive
    }
}
