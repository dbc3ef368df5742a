//! A copy of a map into another one, page after page, by a pass of each.

ghost use Rattle.std.specs.Prelude.{◌≡◌, ◌≤◌, ◌<◌, ◌+◌, ◌^◌, ◌++◌, ◌∷◌, [], true, IfOk, length};
ghost use Rattle.map_types.specs.declared.kind.Side.TheVariants.{Sys};
ghost use Rattle.map_types.specs.Pairs.{HaveSizes};
ghost use Rattle.map_types.specs.ValueLen.{value_len_of};
ghost use Rattle.map_batch.specs.Calls.{table_of};
ghost use Rattle.map_copy.specs.Copied.{IsPage, IsPutOf, pairs_in, read_of};
ghost use Rattle.place_table.specs.Passes.{IsInNoCall, IsPassOf};
ghost use Rattle.place_table.specs.Views.{is_among};
ghost use Rattle.map_run.specs.Copying.{CanCopy, HasCopiedAll, HasCopiedPage, HasPut, HasRead, MayPut, reply_of_put};

use crate::batch_calls::{batch_read, batch_update};
use bucket_walks::BatchRequest;
use file_order::ReplyQueue;
use map_batch::AnyMap;
use map_copy::Plan;
use map_types::{Gate, NoGate, NoMemory, Pairs, Point, Reply};
use place_table::Pass;
use std::alloc::Global;
use std::sync::Wait;

/// The CPU that copies.
const COPIER: u32 = 0;

/// What the reads and the puts of a copy answered, in order.
#[derive(Drop)]
pub(crate) struct Copied {
    pub(crate) reads: ReplyQueue,
    pub(crate) puts: Vec<Reply>,
}

/// Copies a map, the source, into another one, the target, on CPU 0, while other CPUs may make calls on the source. Page after page is
/// read by a batch lookup, the first of so many pairs at most, and the pairs of each page are put by one batch update before the next
/// page is read, until all buckets were read or a pair was refused. The reads are numbered behind so many calls on the source, and the
/// puts from 1 on. There are at most as many reads as the source has buckets, and 17 more. It fails only where memory does.
///
/// The pairs of a page are handed on as they were read, and not copied again. The gate is passed on the source alone.
pub(crate) fn copy_map<R: Wait, G: Gate>(
    rt: &R,
    alloc: Global,
    source: &AnyMap,
    target: &AnyMap,
    before: u32,
    count: u32,
    gate: &G,
    pass: &mut Pass,
    put_pass: &mut Pass,
) -> Result<Copied, NoMemory>
    requires can { CanCopy (table_of source.now) (table_of target.now) pass.old put_pass.old }
    requires few { before ≤ 200000 }
    requires some { 1 ≤ count }
    ensures { IfOk result (λ copied. HasCopiedAll (table_of source.now) (table_of target.now)
        before count pass.old pass.new put_pass.old put_pass.new copied.reads copied.puts.items) }
{
    let shape = source.table().shape();
    let mut plan = Plan::of(count, shape.elements);
    let mut copied = Copied {
        reads: ReplyQueue::new(alloc),
        puts: Vec::new(alloc),
    };
    for done in 0..shape.buckets + 17 {
        let goes_on = copy_page(
            rt,
            alloc,
            source,
            target,
            before + done + 1,
            gate,
            pass,
            put_pass,
            &mut plan,
            &mut copied,
        )?;
        if !goes_on {
            return Ok(copied);
        }
    }
    unreachable!()
}

/// Makes the read that a plan names, as the call of this number, and puts the pairs of its page. It is true where another page is next.
fn copy_page<R: Wait, G: Gate>(
    rt: &R,
    alloc: Global,
    source: &AnyMap,
    target: &AnyMap,
    number: u32,
    gate: &G,
    pass: &mut Pass,
    put_pass: &mut Pass,
    plan: &mut Plan,
    copied: &mut Copied,
) -> Result<bool, NoMemory>
    requires can { CanCopy (table_of source.now) (table_of target.now) pass.old put_pass.old }
    requires start { plan.old.next.start < (table_of source.now).shape.buckets }
    requires few { length copied.old.puts.items + 1 < 2 ^ 32 }
    ensures { IfOk result (λ goes_on. HasCopiedPage (table_of source.now) (table_of target.now) number
        plan.old plan.new pass.old pass.new put_pass.old put_pass.new copied.old.reads
        copied.new.reads copied.old.puts.items copied.new.puts.items goes_on) }
{
    let (count, start) = plan.ask();
    let page = read_page(rt, alloc, source, number, count, start, gate, pass)?;
    let put = put_page(rt, target, copied.puts.len() as u32 + 1, &page, put_pass)?;
    let goes_on = plan.answer(&page, put.as_ref());
    add_page(copied, page, put)?;
    Ok(goes_on)
}

/// Adds the replies of a read, and of its put where there is one.
fn add_page(copied: &mut Copied, page: Reply, put: Option<Reply>) -> Result<(), NoMemory>
    ensures reads { IfOk result (λ _. copied.new.reads ≡ copied.old.reads ++ page ∷ []) }
    ensures puts { IfOk result (λ _. copied.new.puts.items
        ≡ copied.old.puts.items ++ reply_of_put put) }
{
    copied.reads.push(page)?;
    if let Some(reply) = put {
        copied.puts.push(reply)?;
    }
    Ok(())
}

/// Reads a page on CPU 0, as the call of this number: so many pairs at most, from this bucket on.
fn read_page<R: Wait, G: Gate>(
    rt: &R,
    alloc: Global,
    source: &AnyMap,
    number: u32,
    count: u32,
    start: u32,
    gate: &G,
    pass: &mut Pass,
) -> Result<Reply, NoMemory>
    requires table { IsPassOf (table_of source.now) pass.old }
    requires has_cpu { is_among 0 pass.old.view.cpus ≡ true }
    requires in_no_call { IsInNoCall pass.old }
    requires some { 1 ≤ count }
    requires there { start < (table_of source.now).shape.buckets }
    ensures { IfOk result (λ page. HasRead (table_of source.now) number (read_of count start)
        pass.old pass.new page) }
{
    gate.at(COPIER, Point::Begin(number));
    source.table().begin(pass, COPIER, number);
    let request = BatchRequest {
        count,
        start: Some(start),
        flags: 0,
    };
    let page = batch_read(rt, alloc, source, pass, false, request, gate)?;
    gate.at(COPIER, Point::Done(number));
    Ok(page)
}

/// Puts the pairs of a page on CPU 0, as the call of this number, where it has some.
fn put_page<R: Wait>(
    rt: &R,
    target: &AnyMap,
    number: u32,
    page: &Reply,
    pass: &mut Pass,
) -> Result<Option<Reply>, NoMemory>
    requires table { IsPassOf (table_of target.now) pass.old }
    requires has_cpu { is_among 0 pass.old.view.cpus ≡ true }
    requires in_no_call { IsInNoCall pass.old }
    requires page { IsPage page.now }
    requires sizes { HaveSizes (table_of target.now).shape.key_size
        (value_len_of (table_of target.now).shape Sys) (pairs_in page.now) }
    requires few { length (pairs_in page.now) < 2 ^ 32 }
    ensures put { IfOk result (λ put. MayPut (table_of target.now) number (pairs_in page.now)
        pass.old pass.new put) }
    ensures answers { IfOk result (λ put. IsPutOf page.now put) }
{
    let Reply::Batch { taken, .. } = page else {
        return Ok(None);
    };
    if taken.is_empty() {
        return Ok(None);
    }
    Ok(Some(put_pairs(rt, target, number, taken, pass)?))
}

/// Puts pairs on CPU 0, as the call of this number.
fn put_pairs<R: Wait>(
    rt: &R,
    target: &AnyMap,
    number: u32,
    pairs: &Pairs,
    pass: &mut Pass,
) -> Result<Reply, NoMemory>
    requires table { IsPassOf (table_of target.now) pass.old }
    requires has_cpu { is_among 0 pass.old.view.cpus ≡ true }
    requires in_no_call { IsInNoCall pass.old }
    requires sizes { HaveSizes (table_of target.now).shape.key_size
        (value_len_of (table_of target.now).shape Sys) pairs.now }
    requires few { length pairs.now < 2 ^ 32 }
    ensures { IfOk result (HasPut (table_of target.now) number pairs.now pass.old pass.new) }
{
    target.table().begin(pass, COPIER, number);
    batch_update(rt, target, pass, 0, pairs, &NoGate)
}
