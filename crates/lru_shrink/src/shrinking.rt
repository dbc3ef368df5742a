//! A shrink.

ghost use Rattle.std.specs.Prelude.{◌≡◌, ℕ, ◌+◌, ◌-◌, ◌*◌, ◌<◌, ◌≤◌, length, min, Some};
ghost use Rattle.map_types.specs.declared.row.Row as row_record;
ghost use Rattle.lru_lists.specs.Sets.{IsListed, IsSet, row_on, times_listed};
ghost use Rattle.lru_shrink.specs.Asking.{LeavesBut, terms_of};
ghost use Rattle.lru_shrink.specs.Shrunk.{Shrink};

use crate::forced::forced;
use crate::looks::looks;
use lru_lists::{ListSet, Probe, ShrinkNotes};
use percpu_values::BodyStack;
use row_list::Rows;

/// Evicts up to `target` elements of a set, and says how many. Up to `scans` rows of inactive are looked at from the tail:
/// each look clears the bit of its element. Where the bit was set the row goes to the head of active. Else the element is
/// probed: one that is removed from its bucket leaves the set, and one that a CPU has in its hand stays. Where no look
/// removed any, all of inactive is tried by force, or all of active where inactive is then empty: from the tail each is
/// probed whatever its bit, up to the first that is removed. The bodies of the removed elements come on top of `out` one
/// after another. What was looked at and tried is added to the notes; a note for which no memory is found makes these Lost
/// and changes nothing else.
pub fn shrink<R: Rows, P: Probe>(
    set: &mut ListSet<R>,
    probe: &mut P,
    scans: u32,
    target: u32,
    out: &mut BodyStack,
    notes: &mut ShrinkNotes,
) -> u32
    requires target { 1 ≤ target }
    requires room { min target (length set.old.active + length set.old.inactive) ≤ out.old.spare }
    requires noted { P.can_note probe.old (2 * scans
        + (length set.old.active + length set.old.inactive)) }
    requires asked { (e : ℕ) → IsListed e set.old → P.may_ask probe.old e }
    requires probed { (row : row_record.Row) → row_on row.element set.old ≡ Some row
        → P.may_probe probe.old row }
    ensures shrink { Shrink scans target (P.gives probe.new)
        (record {
          set = set.old;
          out = out.old;
          notes = notes.old;
          asked = record { calls = P.calls probe.old; probes = P.probes probe.old };
        })
        (record {
          set = set.new;
          out = out.new;
          notes = notes.new;
          asked = record { calls = P.calls probe.new; probes = P.probes probe.new };
        }) result }
    ensures whole { IsSet set.new }
    // a row may be probed as before unless its element left the set
    ensures only { LeavesBut
        (terms_of P.can_note P.may_ask P.may_probe P.gives P.lender)
        (λ e. times_listed e set.new ≡ times_listed e set.old)
        ((length (P.calls probe.new) - length (P.calls probe.old))
        + (length (P.probes probe.new) - length (P.probes probe.old))) probe.old probe.new }
{
    let freed = looks(set, probe, scans, target, out, &mut notes.looks);
    if freed == 0 {
        forced(set, probe, out, &mut notes.forced)
    } else {
        freed
    }
}
