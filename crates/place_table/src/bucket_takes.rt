//! Deletes and takes of a key. The bucket is given back by a call of its own, so that the element that was taken out may be pushed
//! before it, or freed after it.

ghost use Rattle.std.specs.Prelude.{◌≡◌, IfNone, IfSome, Some, length};
ghost use Rattle.map_types.specs.declared.kind.Side.TheVariants.{Sys};
ghost use Rattle.map_types.specs.Sides.{value_read};
ghost use Rattle.map_types.specs.ValueLen.{value_len_of};
ghost use Rattle.place_words.specs.declared.bucket_part.BucketPart.TheVariants.{Delete, Take};
ghost use Rattle.place_words.specs.declared.history.Part.TheVariants as parts;
ghost use Rattle.place_table.specs.BucketHeld.{HoldsBucket};
ghost use Rattle.place_table.specs.BucketTurns.{DeletesFrom, TakesFrom, IsWithout, IsWithoutValue, GivenBack};

use crate::content::Content;
use crate::pass::Pass;
use crate::table::PlaceTable;
use bucket_chain::{Chain, TakenBucket, body_out, deleted, read_value, take_got, take_missed};
use map_types::{DomainId, Gate, Side};
use percpu_values::BoxedBody;

/// A body that was taken out of a bucket, and what is left there.
#[derive(Drop)]
pub struct TakenOut {
    pub body: BoxedBody,
    pub chain: Chain,
}

impl PlaceTable {
    /// Takes the body of a key out of its bucket, and its element into the CPU's hand. The bucket is still held. Where the key is
    /// absent the bucket is given back with the entry of a delete that found nothing.
    pub fn delete_from<G: Gate>(
        &self,
        pass: &mut Pass,
        taken: TakenBucket,
        key: &[u8],
        gate: &G,
    ) -> Option<TakenOut>
        requires { HoldsBucket self.now taken.number pass.old taken.chain.bodies }
        ensures { DeletesFrom self.now taken.number pass.old pass.new taken.chain.bodies key.now
            result }
    {
        let TakenBucket { number, mut chain } = taken;
        let Some(place) = chain.find(key) else {
            let part = deleted(self.alloc, key, None);
            let lock = DomainId::Bucket(number);
            self.give(pass, lock, Content::Bucket(chain), part.ok(), gate);
            return None;
        };
        let body = body_out(&mut chain, place);
        self.detach(pass, body.body().element(), number);
        Some(TakenOut { body, chain })
    }

    /// The same of a take, which reads the value of the key as the system call does. Where the key is absent `out` is as it was.
    pub fn take_from<G: Gate>(
        &self,
        pass: &mut Pass,
        taken: TakenBucket,
        key: &[u8],
        out: &mut [u8],
        gate: &G,
    ) -> Option<TakenOut>
        requires holds { HoldsBucket self.now taken.number pass.old taken.chain.bodies }
        requires out { length out.old ≡ value_len_of self.now.shape Sys }
        ensures takes { TakesFrom self.now taken.number pass.old pass.new taken.chain.bodies key.now
            result }
        ensures read { IfSome result (λ found. out.new
            ≡ value_read self.now.shape Sys pass.old.cpu found.body.values) }
        ensures missed { IfNone result (out.new ≡ out.old) }
    {
        let alloc = self.alloc;
        let TakenBucket { number, mut chain } = taken;
        let Some(place) = chain.find(key) else {
            let part = take_missed(alloc, key);
            let lock = DomainId::Bucket(number);
            self.give(pass, lock, Content::Bucket(chain), part.ok(), gate);
            return None;
        };
        let cpu = self.cpu_of(pass);
        let body = body_out(&mut chain, place);
        read_value(self.shape(), Side::Sys, cpu, body.body(), out);
        self.detach(pass, body.body().element(), number);
        Some(TakenOut { body, chain })
    }

    /// Gives a bucket back, out of which the body of a key was taken, with the entry of its delete.
    pub fn give_deleted<G: Gate>(
        &self,
        pass: &mut Pass,
        left: TakenBucket,
        key: &[u8],
        element: u32,
        gate: &G,
    )
        requires { IsWithout self.now left.number pass.old key.now element left.chain.bodies }
        ensures { GivenBack self.now left.number pass.old pass.new
            (parts.Bucket (Delete key.now (Some element))) pass.old.view.hand }
    {
        let TakenBucket { number, chain } = left;
        let lock = DomainId::Bucket(number);
        let part = deleted(self.alloc, key, Some(element));
        self.give(pass, lock, Content::Bucket(chain), part.ok(), gate);
    }

    /// The same of a take, with what the system call read.
    pub fn give_taken<G: Gate>(
        &self,
        pass: &mut Pass,
        left: TakenBucket,
        key: &[u8],
        element: u32,
        value: &[u8],
        gate: &G,
    )
        requires { IsWithoutValue self.now left.number pass.old key.now element value.now
            left.chain.bodies }
        ensures { GivenBack self.now left.number pass.old pass.new
            (parts.Bucket (Take key.now (Some (element, value.now)))) pass.old.view.hand }
    {
        let TakenBucket { number, chain } = left;
        let lock = DomainId::Bucket(number);
        let part = take_got(self.alloc, key, element, value);
        self.give(pass, lock, Content::Bucket(chain), part.ok(), gate);
    }
}
