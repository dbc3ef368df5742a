//! The local lists of a CPU, worked by hand on the elements below 5.

ghost use Rattle.std.specs.Prelude.{◌≡◌, ◌+◌, ◌<◌, ◌≤◌, IfSome};

use local_lists::LocalSet;
use percpu_values::{BodyStack, BoxedBody};
use row_list::{PlainRows, Row, Rows};
use std::alloc::Global;

/// Local lists of CPU 1 with the elements 3, 2, 1 and 0 pending, head first, or None where memory for them is not found.
fn filled(alloc: Global) -> Option<LocalSet<PlainRows>>
    ensures { IfSome result (λ lists. lists.free.spare ≡ 5) }
{
    let Ok(mut lists) = LocalSet::<PlainRows>::create(alloc, 5, 1) else {
        return None;
    };
    for element in 0..4 {
        if !put(&mut lists, element) {
            return None;
        }
    }
    Some(lists)
}

/// Makes an element pending that is on neither list, and answers whether it is.
fn put(lists: &mut LocalSet<PlainRows>, element: u32) -> bool
    requires { element < lists.old.elements }
    ensures { (lists.new.elements ≡ lists.old.elements) × (lists.new.free ≡ lists.old.free) }
{
    if lists.take_pending(element).is_some() || lists.free_len() != 0 {
        return false;
    }
    lists.add_pending(row_of(element));
    true
}

/// The row of an element, with a hash by which it is told from others.
fn row_of(element: u32) -> Row
    ensures { result.element ≡ element }
{
    Row {
        element,
        hash: 10 + element % 6,
    }
}

/// Frees an element that is pending, and answers whether it was, with its row.
fn free(alloc: Global, lists: &mut LocalSet<PlainRows>, element: u32) -> bool
    requires { 1 ≤ lists.old.free.spare }
    ensures { lists.old.free.spare ≤ lists.new.free.spare + 1 }
{
    let Ok(body) = BoxedBody::create(alloc, element, 1, 1, 1) else {
        return false;
    };
    match lists.take_pending(element) {
        Some(row) => {
            lists.push_free(body);
            row == row_of(element)
        }
        None => false,
    }
}

/// Makes the head of the free list pending, and answers whether it was this element.
fn give_out(lists: &mut LocalSet<PlainRows>, element: u32) -> bool {
    match lists.pop_free() {
        Some(body) => {
            lists.add_pending(row_of(body.body().element()));
            body.body().element() == element
        }
        None => false,
    }
}

/// Whether these are the pending elements, head first, each with its row.
fn are_pending(lists: &LocalSet<PlainRows>, elements: &[u32]) -> bool {
    let mut next = lists.pending().head();
    for element in elements {
        match next {
            Some(row) if row == row_of(*element) => next = lists.pending().after(row.element),
            _ => return false,
        }
    }
    next.is_none()
}

/// Whether the free list has this one body, which it gives for a stack without a body.
fn gives_up(alloc: Global, lists: &mut LocalSet<PlainRows>, element: u32) -> bool {
    let mut stack = BodyStack::empty(alloc);
    if lists.free_len() != 1 {
        return false;
    }
    lists.swap_free(&mut stack);
    let there = stack
        .pop()
        .is_some_and(|body| body.body().element() == element);
    there && stack.len() == 0 && lists.free_len() == 0 && lists.pop_free().is_none()
}

/// Whether each step on these lists does what it is to do.
fn go_right(alloc: Global, lists: &mut LocalSet<PlainRows>) -> bool
    requires { lists.old.free.spare ≡ 5 }
{
    let freed = free(alloc, lists, 1) && free(alloc, lists, 3);
    let gone = lists.take_pending(1).is_none() && are_pending(lists, &[2, 0]);
    let given = give_out(lists, 3) && are_pending(lists, &[3, 2, 0]);
    let stood = lists.steal_cursor();
    lists.set_steal_cursor(0);
    freed && gone && given && stood == 1 && lists.steal_cursor() == 0 && gives_up(alloc, lists, 1)
}

/// Whether local lists are made, and go right.
fn local_lists_go_right(alloc: Global) -> bool {
    match filled(alloc) {
        Some(mut lists) => go_right(alloc, &mut lists),
        None => false,
    }
}

#[test]
fn local_lists_by_hand(rt: HostRuntime) {
    assert!(rt; local_lists_go_right(rt.alloc()));
}
