//! Updates of a key in its bucket.

ghost use Rattle.std.specs.Prelude.{◌≡◌, ◌≢◌, IsTrue, None, false};
ghost use Rattle.map_types.specs.Kind.{is_percpu};
ghost use Rattle.place_words.specs.Bodies.{present};
ghost use Rattle.place_words.specs.Buckets.{AllowsPut};
ghost use Rattle.place_table.specs.InBucket.{IsAt};
ghost use Rattle.place_table.specs.BucketHeld.{HoldsBucket};
ghost use Rattle.place_table.specs.BucketPuts.{AreUpdateArguments, IsOffered, IsRefusal, PutsInPlace, Adds, Replaces, Writes, asked_of, update_call, offer_on};

use crate::bucket_turns::mark_on;
use crate::content::Content;
use crate::pass::Pass;
use crate::table::PlaceTable;
use bucket_chain::{TakenBucket, Write, body_at, fill_body, updated, write_value};
use map_types::{DomainId, Gate, Shape};
use percpu_values::BoxedBody;
use place_words::Put;

impl PlaceTable {
    /// Gives a bucket back as it was taken, with the entry of an update that was refused.
    pub fn refuse_update<G: Gate>(
        &self,
        pass: &mut Pass,
        taken: TakenBucket,
        write: Write,
        offer: Option<u32>,
        put: Put,
        gate: &G,
    )
        requires holds { HoldsBucket self.now taken.number pass.old taken.chain.bodies }
        requires refusal { IsRefusal put }
        requires allowed { AllowsPut self.now.shape write.flags write.key.now put
            taken.chain.bodies }
        ensures { PutsInPlace self.now taken.number pass.old pass.new
            (asked_of write.entry.side write.entry.flags write.entry.key.now write.entry.value.now
            offer) put }
    {
        let TakenBucket { number, chain } = taken;
        let part = updated(
            self.alloc,
            write.side,
            write.flags,
            write.key,
            write.value,
            offer,
            put,
        );
        let lock = DomainId::Bucket(number);
        self.give(pass, lock, Content::Bucket(chain), part.ok(), gate);
    }

    /// Adds an absent key with an element from the CPU's hand, and gives the bucket back.
    pub fn add_key<G: Gate>(
        &self,
        pass: &mut Pass,
        taken: TakenBucket,
        write: Write,
        mut body: BoxedBody,
        gate: &G,
    )
        requires holds { HoldsBucket self.now taken.number pass.old taken.chain.bodies }
        requires gives { AreUpdateArguments self.now taken.number write.side write.key.now
            write.value.now }
        requires offered { IsOffered self.now taken.number pass.old body }
        requires absent { present write.key.now taken.chain.bodies ≡ None }
        requires adds { write.flags ≢ 2 }
        ensures { Adds self.now taken.number pass.old pass.new
            (update_call write.entry.side write.entry.flags write.entry.key.now
            write.entry.value.now) body.element }
    {
        let alloc = self.alloc;
        let TakenBucket { number, mut chain } = taken;
        let shape = self.shape();
        let cpu = self.cpu_of(pass);
        fill_body(shape, write.side, cpu, &mut body, write.key, write.value);
        let element = body.body().element();
        self.attach(pass, element, number);
        // There is always room for one more.
        let _ = chain.reserve_one(alloc);
        chain.add_head(body);
        let part = updated(
            alloc,
            write.side,
            write.flags,
            write.key,
            write.value,
            offer_on(shape, element),
            Put::Added(element),
        );
        let lock = DomainId::Bucket(number);
        self.give(pass, lock, Content::Bucket(chain), part.ok(), gate);
    }

    /// Writes the value of a present key in place, and gives the bucket back. On a map that evicts the bit of its element is set.
    pub fn write_key<G: Gate>(
        &self,
        pass: &mut Pass,
        taken: TakenBucket,
        place: u32,
        write: Write,
        offer: Option<u32>,
        gate: &G,
    )
        requires holds { HoldsBucket self.now taken.number pass.old taken.chain.bodies }
        requires gives { AreUpdateArguments self.now taken.number write.side write.key.now
            write.value.now }
        requires at { IsAt write.key.now place taken.chain.bodies }
        requires percpu { IsTrue (is_percpu self.now.shape.kind) }
        requires replaces { write.flags ≢ 1 }
        ensures { Writes self.now taken.number pass.old pass.new
            (asked_of write.entry.side write.entry.flags write.entry.key.now write.entry.value.now
            offer) }
    {
        let alloc = self.alloc;
        let TakenBucket { number, mut chain } = taken;
        let cpu = self.cpu_of(pass);
        let element = body_at(&chain, place).element();
        mark_on(self, pass, number, element);
        write_value(
            self.shape(),
            write.side,
            cpu,
            &mut chain,
            place,
            write.key,
            write.value,
        );
        let part = updated(
            alloc,
            write.side,
            write.flags,
            write.key,
            write.value,
            offer,
            Put::Written(element),
        );
        let lock = DomainId::Bucket(number);
        self.give(pass, lock, Content::Bucket(chain), part.ok(), gate);
    }

    /// Puts an element from the CPU's hand in the place of a present key's, and gives the bucket back. The old one is in the CPU's
    /// hand then. On a map that evicts the bit of the new one is set.
    pub fn replace_key<G: Gate>(
        &self,
        pass: &mut Pass,
        taken: TakenBucket,
        place: u32,
        write: Write,
        mut body: BoxedBody,
        gate: &G,
    ) -> BoxedBody
        requires holds { HoldsBucket self.now taken.number pass.old taken.chain.bodies }
        requires gives { AreUpdateArguments self.now taken.number write.side write.key.now
            write.value.now }
        requires offered { IsOffered self.now taken.number pass.old body }
        requires at { IsAt write.key.now place taken.chain.bodies }
        requires single { is_percpu self.now.shape.kind ≡ false }
        requires replaces { write.flags ≢ 1 }
        ensures { Replaces self.now taken.number pass.old pass.new
            (update_call write.entry.side write.entry.flags write.entry.key.now
            write.entry.value.now) body.element result }
    {
        let alloc = self.alloc;
        let TakenBucket { number, mut chain } = taken;
        let shape = self.shape();
        let cpu = self.cpu_of(pass);
        fill_body(shape, write.side, cpu, &mut body, write.key, write.value);
        let new = body.body().element();
        self.attach(pass, new, number);
        mark_on(self, pass, number, new);
        let replaced = chain.replace_head(place, body);
        let old = replaced.body().element();
        self.detach(pass, old, number);
        let part = updated(
            alloc,
            write.side,
            write.flags,
            write.key,
            write.value,
            offer_on(shape, new),
            Put::Replaced { new, old },
        );
        let lock = DomainId::Bucket(number);
        self.give(pass, lock, Content::Bucket(chain), part.ok(), gate);
        replaced
    }
}

/// The element that the entry of an update says it was offered, where it puts this one: none on a map that doesn't evict.
fn offer_on(shape: &Shape, element: u32) -> Option<u32>
    ensures { result ≡ offer_on shape.now.kind element }
{
    if shape.kind.is_lru() {
        Some(element)
    } else {
        None
    }
}
