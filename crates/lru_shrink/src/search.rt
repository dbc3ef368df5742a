//! The walks over a list that look for one element to take: one spares elements whose bit is set, the other none.

ghost use Rattle.std.specs.Prelude.{◌≡◌, ◌≢◌, ℕ, ◌+◌, ◌-◌, ◌*◌, ◌++◌, [], ◌∷◌, length, not, is_some, Some};
ghost use Rattle.std.specs.Option.{IfSome};
ghost use Rattle.map_types.specs.ElementLists.{times, IsIn};
ghost use Rattle.map_types.specs.Listed.{elements_of};
ghost use Rattle.map_types.specs.declared.row.Row as row_record;
ghost use Rattle.row_list.specs.RowWords.{row_of};
ghost use Rattle.lru_shrink.specs.Asking.{LeavesBut, terms_of};
ghost use Rattle.lru_shrink.specs.Searches.{IsFound, SparingSearch, UnsparingSearch, bits_read};
ghost use Rattle.lru_shrink.specs.Shrunk.{probes_of_looks, removed_by_looks, removed_by_tries};

use lru_lists::{Noted, Probe, Probed};
use percpu_values::BoxedBody;
use place_words::{Look, Seen, Try};
use row_list::{Row, Rows};

/// Looks at the rows of a list from the tail, up to the first element that is removed, and answers its body: the first walk
/// of the kernel's `__local_list_pop_pending`. Each look reads the bit of an element and leaves it as it is. Where the bit
/// isn't set the element is probed: it is removed from its bucket, or a CPU has it in its hand. The rows stay, that of the
/// removed element too. Each look is added to the notes; one for which no memory is found makes them Lost and changes
/// nothing else.
pub fn search_sparing<R: Rows, P: Probe>(
    rows: &R,
    probe: &mut P,
    notes: &mut Noted<Look>,
) -> Option<BoxedBody>
    requires noted { P.can_note probe.old (2 * length (R.rows rows.now)) }
    requires asked { (e : ℕ) → IsIn e (elements_of (R.rows rows.now)) → P.may_ask probe.old e }
    requires probed { (row : row_record.Row) → row_of row.element (R.rows rows.now) ≡ Some row
        → P.may_probe probe.old row }
    ensures search { SparingSearch (R.rows rows.now) (P.gives probe.new)
        (record {
          asked = record { calls = P.calls probe.old; probes = P.probes probe.old };
          notes = notes.old;
        })
        (record {
          asked = record { calls = P.calls probe.new; probes = P.probes probe.new };
          notes = notes.new;
        }) result }
    // a row may be probed as before unless its element was removed
    ensures only { LeavesBut
        (terms_of P.can_note P.may_ask P.may_probe P.gives P.lender)
        (λ e. IfSome result (λ body. e ≢ body.element))
        ((length (P.calls probe.new) - length (P.calls probe.old))
        + (length (P.probes probe.new) - length (P.probes probe.old))) probe.old probe.new }
{
    let mut at = rows.tail();
    for _look in 0..rows.len() {
        let Some(row) = at else {
            return None;
        };
        at = rows.before(row.element);
        let (look, body) = look_at(probe, row);
        notes.note(look);
        if body.is_some() {
            return body;
        }
    }
    None
}

/// Probes the elements of a list from the tail whatever their bits, up to the first that is removed, and answers its body: the
/// second walk of the kernel's `__local_list_pop_pending`, and the forced one of `__bpf_lru_list_shrink`. The rows stay, that
/// of the removed element too. Each try is added to the notes; one for which no memory is found makes them Lost and changes
/// nothing else.
pub fn search_all<R: Rows, P: Probe>(
    rows: &R,
    probe: &mut P,
    notes: &mut Noted<Try>,
) -> Option<BoxedBody>
    requires noted { P.can_note probe.old (length (R.rows rows.now)) }
    requires probed { (row : row_record.Row) → row_of row.element (R.rows rows.now) ≡ Some row
        → P.may_probe probe.old row }
    ensures search { UnsparingSearch (R.rows rows.now) (P.gives probe.new)
        (record {
          asked = record { calls = P.calls probe.old; probes = P.probes probe.old };
          notes = notes.old;
        })
        (record {
          asked = record { calls = P.calls probe.new; probes = P.probes probe.new };
          notes = notes.new;
        }) result }
    ensures calls { P.calls probe.new ≡ P.calls probe.old }
    ensures only { LeavesBut
        (terms_of P.can_note P.may_ask P.may_probe P.gives P.lender)
        (λ e. IfSome result (λ body. e ≢ body.element))
        (length (P.probes probe.new) - length (P.probes probe.old)) probe.old probe.new }
{
    let mut at = rows.tail();
    for _try in 0..rows.len() {
        let Some(row) = at else {
            return None;
        };
        at = rows.before(row.element);
        let (tried, body) = probe_row(probe, row);
        notes.note(tried);
        if body.is_some() {
            return body;
        }
    }
    None
}

/// Looks at a row: reads the bit of its element, and probes that where the bit isn't set.
fn look_at<P: Probe>(probe: &mut P, row: Row) -> (Look, Option<BoxedBody>)
    requires noted { P.can_note probe.old 2 }
    requires asked { P.may_ask probe.old row.element }
    requires probed { P.may_probe probe.old row }
    ensures element { result.0.element ≡ row.element }
    ensures bit { is_some result.0.probed ≡ not result.0.bit }
    ensures body { IsFound (P.gives probe.new) (removed_by_looks (result.0 ∷ [])) result.1 }
    ensures call { P.calls probe.new ≡ P.calls probe.old ++ bits_read (result.0 ∷ []) }
    ensures probes { P.probes probe.new
        ≡ P.probes probe.old ++ probes_of_looks (row ∷ []) (result.0 ∷ []) }
    ensures only { LeavesBut
        (terms_of P.can_note P.may_ask P.may_probe P.gives P.lender)
        (λ e. times e (removed_by_looks (result.0 ∷ [])) ≡ 0)
        (1 + length (probes_of_looks (row ∷ []) (result.0 ∷ []))) probe.old probe.new }
{
    let bit = probe.read(row.element);
    if bit {
        let look = Look {
            element: row.element,
            bit,
            probed: None,
        };
        (look, None)
    } else {
        let (tried, body) = probe_row(probe, row);
        let look = Look {
            element: row.element,
            bit,
            probed: Some(tried.probed),
        };
        (look, body)
    }
}

/// Probes the element of a row, and answers its body where that removes it.
fn probe_row<P: Probe>(probe: &mut P, row: Row) -> (Try, Option<BoxedBody>)
    requires noted { P.can_note probe.old 1 }
    requires probed { P.may_probe probe.old row }
    ensures element { result.0.element ≡ row.element }
    ensures body { IsFound (P.gives probe.new) (removed_by_tries (result.0 ∷ [])) result.1 }
    ensures calls { P.calls probe.new ≡ P.calls probe.old }
    ensures probes { P.probes probe.new
        ≡ P.probes probe.old
        ++ record { element = row.element; hash = row.hash; probed = result.0.probed } ∷ [] }
    ensures only { LeavesBut
        (terms_of P.can_note P.may_ask P.may_probe P.gives P.lender)
        (λ e. times e (removed_by_tries (result.0 ∷ [])) ≡ 0) 1 probe.old probe.new }
{
    let (probed, body) = match probe.evict(row.element, row.hash) {
        Probed::Removed(body) => (Seen::Removed, Some(body)),
        Probed::Held(cpu) => (Seen::Held(cpu), None),
    };
    let tried = Try {
        element: row.element,
        probed,
    };
    (tried, body)
}
