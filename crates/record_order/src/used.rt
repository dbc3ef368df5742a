//! The first ticket that is too great, was used before, or is below the least that its entry may have.

ghost use Rattle.std.specs.Prelude.{◌≡◌, ◌||◌, Bool, false, IfOk, length, nat_lt, replicate, slice_index_or};
ghost use Rattle.record_order.specs.TicketTables.{first_wrong, is_wrong};

use map_types::NoMemory;
use std::alloc::Global;

/// The number of the first one.
pub(crate) fn first_wrong(
    alloc: Global,
    tickets: &[u64],
    leasts: &[u64],
) -> Result<Option<u64>, NoMemory>
    requires long { length leasts.now ≡ length tickets.now }
    ensures { IfOk result (λ number. number ≡ first_wrong 0 (replicate (length tickets.now) false) tickets.now leasts.now) }
{
    let mut used = unused(alloc, tickets.len())?;
    Ok(first_used(used.as_mut_slice(), tickets, leasts))
}

/// No ticket was used.
fn unused(alloc: Global, count: usize) -> Result<Vec<bool>, NoMemory>
    ensures { IfOk result (λ used. used.items ≡ replicate count false) }
{
    Ok(vec![in alloc; false; count]?)
}

/// The first one, where some tickets were used.
fn first_used(used: &mut [bool], tickets: &[u64], leasts: &[u64]) -> Option<u64>
    requires long { length leasts.now ≡ length tickets.now }
    requires room { length used.old ≡ length tickets.now }
    ensures { result ≡ first_wrong 0 used.old tickets.now leasts.now }
{
    for number in 0..tickets.len() {
        let ticket = tickets[number];
        if is_wrong(used, ticket, leasts[number]) {
            return Some(number as u64);
        }
        used[ticket as usize] = true;
    }
    None
}

/// Whether a ticket isn't among those that can be used, is used, or is below the least.
fn is_wrong(used: &[bool], ticket: u64, least: u64) -> bool
    ensures { result ≡ is_wrong used.now ticket least }
{
    if ticket < used.len() as u64 {
        used[ticket as usize] || ticket < least
    } else {
        true
    }
}
