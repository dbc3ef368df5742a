//! The first part of a shrink: the walk over inactive that spares elements whose bit is set.

ghost use Rattle.std.specs.Prelude.{◌≡◌, ℕ, ◌+◌, ◌-◌, ◌*◌, ◌<◌, ◌≤◌, ◌++◌, [], ◌∷◌, length, min, not, is_some, count_by, Some};
ghost use Rattle.map_types.specs.ElementLists.{times};
ghost use Rattle.place_words.specs.Shrinking.{look_removed};
ghost use Rattle.map_types.specs.declared.row.Row as row_record;
ghost use Rattle.lru_lists.specs.Sets.{IsListed, IsSet, row_on, times_listed};
ghost use Rattle.lru_shrink.specs.Asking.{LeavesBut, terms_of};
ghost use Rattle.lru_shrink.specs.Shrunk.{LooksPart, AreStacked, after_look, after_try, cleared, look_probes, removed_by_looks, removed_by_tries};

use lru_lists::{ListName, ListSet, Noted, Probe, Probed};
use percpu_values::BodyStack;
use place_words::{Look, Seen, Try};
use row_list::{Row, Rows};

/// Looks at up to `scans` rows of inactive from the tail, until `target` elements are removed. Answers how many were.
pub fn looks<R: Rows, P: Probe>(
    set: &mut ListSet<R>,
    probe: &mut P,
    scans: u32,
    target: u32,
    out: &mut BodyStack,
    notes: &mut Noted<Look>,
) -> u32
    requires target { 1 ≤ target }
    requires room { min target (length set.old.inactive) ≤ out.old.spare }
    requires noted { P.can_note probe.old (2 * scans) }
    requires asked { (e : ℕ) → IsListed e set.old → P.may_ask probe.old e }
    requires probed { (row : row_record.Row) → row_on row.element set.old ≡ Some row
        → P.may_probe probe.old row }
    ensures part { LooksPart scans target (P.gives probe.new)
        (record {
          set = set.old;
          out = out.old;
          notes = notes.old;
          asked = record { calls = P.calls probe.old; probes = P.probes probe.old };
        })
        (record {
          set = set.new;
          out = out.new;
          notes = notes.new;
          asked = record { calls = P.calls probe.new; probes = P.probes probe.new };
        }) result }
    ensures was_whole { IsSet set.old }
    ensures whole { IsSet set.new }
    ensures only { LeavesBut
        (terms_of P.can_note P.may_ask P.may_probe P.gives P.lender)
        (λ e. times_listed e set.new ≡ times_listed e set.old)
        ((length (P.calls probe.new) - length (P.calls probe.old))
        + (length (P.probes probe.new) - length (P.probes probe.old))) probe.old probe.new }
{
    let mut freed = 0;
    let mut at = set.rows(ListName::Inactive).tail();
    for _scan in 0..scans {
        let Some(row) = at else {
            return freed;
        };
        at = set.rows(ListName::Inactive).before(row.element);
        let look = look_once(set, probe, row, out);
        notes.note(look);
        freed += freed_by(look);
        if freed == target {
            return freed;
        }
    }
    freed
}

/// Looks at a row, and clears the bit of its element. Where the bit was set the row goes to the head of active. Else the
/// element is probed, and leaves the set where that removes it.
fn look_once<R: Rows, P: Probe>(
    set: &mut ListSet<R>,
    probe: &mut P,
    row: Row,
    out: &mut BodyStack,
) -> Look
    requires listed { IsListed row.element set.old }
    requires room { 1 ≤ out.old.spare }
    requires noted { P.can_note probe.old 2 }
    requires asked { P.may_ask probe.old row.element }
    requires probed { P.may_probe probe.old row }
    ensures element { result.element ≡ row.element }
    ensures bit { is_some result.probed ≡ not result.bit }
    ensures set { set.new ≡ after_look result set.old }
    ensures out { AreStacked (P.gives probe.new) (removed_by_looks (result ∷ [])) out.old out.new }
    ensures call { P.calls probe.new ≡ P.calls probe.old ++ cleared (result ∷ []) }
    ensures probes { row_on row.element set.old ≡ Some row
        → P.probes probe.new ≡ P.probes probe.old ++ look_probes set.old (result ∷ []) }
    ensures whole { IsSet set.old → IsSet set.new }
    ensures only { LeavesBut
        (terms_of P.can_note P.may_ask P.may_probe P.gives P.lender)
        (λ e. times e (removed_by_looks (result ∷ [])) ≡ 0)
        (1 + length (look_probes set.old (result ∷ []))) probe.old probe.new }
{
    let bit = probe.clear(row.element);
    if bit {
        set.move_to(row.element, ListName::Active);
        Look {
            element: row.element,
            bit,
            probed: None,
        }
    } else {
        let tried = try_once(set, probe, row, out);
        Look {
            element: row.element,
            bit,
            probed: Some(tried.probed),
        }
    }
}

/// Probes the element of a row. Where that removes it, it leaves the set, and its body comes on top of `out`.
fn try_once<R: Rows, P: Probe>(
    set: &mut ListSet<R>,
    probe: &mut P,
    row: Row,
    out: &mut BodyStack,
) -> Try
    requires room { 1 ≤ out.old.spare }
    requires noted { P.can_note probe.old 1 }
    requires probed { P.may_probe probe.old row }
    ensures element { result.element ≡ row.element }
    ensures set { set.new ≡ after_try result set.old }
    ensures out { AreStacked (P.gives probe.new) (removed_by_tries (result ∷ [])) out.old out.new }
    ensures calls { P.calls probe.new ≡ P.calls probe.old }
    ensures probes { P.probes probe.new
        ≡ P.probes probe.old
        ++ record { element = row.element; hash = row.hash; probed = result.probed } ∷ [] }
    ensures whole { IsSet set.old → IsSet set.new }
    ensures only { LeavesBut
        (terms_of P.can_note P.may_ask P.may_probe P.gives P.lender)
        (λ e. times e (removed_by_tries (result ∷ [])) ≡ 0) 1 probe.old probe.new }
{
    let probed = match probe.evict(row.element, row.hash) {
        Probed::Removed(body) => {
            // What comes off is this row.
            let _ = set.take_off(row.element);
            out.push(body);
            Seen::Removed
        }
        Probed::Held(cpu) => Seen::Held(cpu),
    };
    Try {
        element: row.element,
        probed,
    }
}

/// How many elements a look freed.
fn freed_by(look: Look) -> u32
    ensures { result ≡ count_by look_removed (look ∷ []) }
{
    match look.probed {
        Some(Seen::Removed) => 1,
        _ => 0,
    }
}
