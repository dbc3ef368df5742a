//! How a bucket is taken, and lookups in it.

ghost use Rattle.std.specs.Prelude.{◌≡◌, IfErr, IsTrue, length};
ghost use Rattle.map_types.specs.Kind.{is_lru};
ghost use Rattle.map_types.specs.ValueLen.{value_len_of};
ghost use Rattle.place_table.specs.Calls.{reply_of_value};
ghost use Rattle.place_table.specs.Passes.{CanMark};
ghost use Rattle.place_table.specs.BucketHeld.{HoldsBucket};
ghost use Rattle.place_table.specs.BucketTurns.{CanEnter, Entered, LooksUp, MarkedOn, MarkedFor};

use crate::content::Content;
use crate::pass::Pass;
use crate::table::PlaceTable;
use bucket_chain::{Chain, TakenBucket, body_at, lookup_got, lookup_missed, read_value};
use map_types::{Absent, DomainId, Gate, Side};
use std::sync::Wait;

impl PlaceTable {
    /// Takes a bucket, in a pass that holds no lock.
    pub fn enter_bucket<R: Wait, G: Gate>(
        &self,
        rt: &R,
        pass: &mut Pass,
        bucket: u32,
        gate: &G,
    ) -> Chain
        requires { CanEnter self.now bucket pass.old }
        ensures { Entered self.now bucket pass.old pass.new result }
    {
        let Content::Bucket(chain) = self.take(rt, pass, DomainId::Bucket(bucket), gate) else {
            unreachable!()
        };
        chain
    }

    /// Looks up a key in its bucket, and gives the bucket back. On a map that evicts a program's lookup sets the bit of the
    /// element. It is `Absent`, and `out` as it was, exactly where its turn found no such key.
    pub fn look_up<G: Gate>(
        &self,
        pass: &mut Pass,
        taken: TakenBucket,
        side: Side,
        key: &[u8],
        out: &mut [u8],
        gate: &G,
    ) -> Result<(), Absent>
        requires holds { HoldsBucket self.now taken.number pass.old taken.chain.bodies }
        requires out { length out.old ≡ value_len_of self.now.shape side }
        ensures looks_up { LooksUp self.now taken.number pass.old pass.new side key.now
            (reply_of_value result out.new) }
        ensures refused { IfErr result (λ _. out.new ≡ out.old) }
    {
        let alloc = self.alloc;
        let TakenBucket { number, chain } = taken;
        let lock = DomainId::Bucket(number);
        let cpu = self.cpu_of(pass);
        let Some(place) = chain.find(key) else {
            let part = lookup_missed(alloc, side, key);
            self.give(pass, lock, Content::Bucket(chain), part.ok(), gate);
            return Err(Absent);
        };
        let body = body_at(&chain, place);
        let element = body.element();
        read_value(self.shape(), side, cpu, body, out);
        mark_for(self, pass, number, side, element);
        let part = lookup_got(alloc, side, key, element, out);
        self.give(pass, lock, Content::Bucket(chain), part.ok(), gate);
        Ok(())
    }
}

/// Sets the bit of an element that a program looked up, on a map that evicts. The system call's lookups leave it.
fn mark_for(table: &PlaceTable, pass: &mut Pass, bucket: u32, side: Side, element: u32)
    requires { CanMark table.now element bucket pass.old }
    ensures { MarkedFor table.now side element pass.old pass.new }
{
    match side {
        Side::Prog => mark_on(table, pass, bucket, element),
        Side::Sys => (),
    }
}

/// Sets the bit of an element of a bucket that is held, on a map that evicts.
pub(crate) fn mark_on(table: &PlaceTable, pass: &mut Pass, bucket: u32, element: u32)
    requires { IsTrue (is_lru table.now.shape.kind) → CanMark table.now element bucket pass.old }
    ensures { MarkedOn table.now element pass.old pass.new }
{
    if table.shape().kind.is_lru() {
        table.mark(pass, element, bucket);
    }
}
