//! Updates in a key's bucket.

ghost use Rattle.std.specs.Prelude.{◌≡◌, ◌≢◌, ◌≤◌, IfErr, None, false};
ghost use Rattle.map_types.specs.declared.call.Verb.TheVariants as verbs;
ghost use Rattle.map_types.specs.declared.reply.Reply.TheVariants as replies;
ghost use Rattle.map_types.specs.Kind.{is_percpu};
ghost use Rattle.place_words.specs.Bodies.{present};
ghost use Rattle.place_table.specs.InBucket.{InBucket, IsAt};
ghost use Rattle.place_table.specs.BucketPuts.{AreUpdateArguments};
ghost use Rattle.hash_ops.specs.Calls.{MayRefuse};
ghost use Rattle.hash_ops.specs.Under.{HasItsSpares, AnsweredAt, UpdateEnds};

use crate::map::{PlainMap, PlainRefusal};
use bucket_chain::{BPF_EXIST, BPF_NOEXIST, TakenBucket, Write};
use map_types::Gate;
use place_table::Pass;
use place_words::Put;
use std::sync::Wait;

impl PlainMap {
    /// Updates a key in its bucket, by flags that are known: a present key is refused, written in place or given the spare
    /// element, and an absent one is refused or gets an element that is popped, as in the kernel's `htab_map_update_elem` and
    /// `__htab_percpu_map_update_elem`.
    pub(crate) fn update_in<R: Wait, G: Gate>(
        &self,
        rt: &R,
        pass: &mut Pass,
        taken: TakenBucket,
        write: Write,
        gate: &G,
    ) -> Result<(), PlainRefusal>
        requires inside { InBucket self.now taken.number pass.old taken.chain.bodies }
        requires spares { HasItsSpares pass.old }
        requires gives { AreUpdateArguments self.now taken.number write.side write.key.now
            write.value.now }
        requires known { write.flags ≤ 2 }
        ensures ends { UpdateEnds self.now taken.number pass.old pass.new
            (verbs.Update write.entry.side write.entry.flags write.entry.key.now
            write.entry.value.now) result }
        ensures refuses { IfErr result (MayRefuse write.entry.flags) }
    {
        match taken.chain.find(write.key) {
            Some(place) => { self.update_present(pass, taken, place, write, gate) }
            None => { self.update_absent(rt, pass, taken, write, gate) }
        }
    }

    /// An update of a key that is present.
    fn update_present<G: Gate>(
        &self,
        pass: &mut Pass,
        taken: TakenBucket,
        place: u32,
        write: Write,
        gate: &G,
    ) -> Result<(), PlainRefusal>
        requires inside { InBucket self.now taken.number pass.old taken.chain.bodies }
        requires spares { HasItsSpares pass.old }
        requires gives { AreUpdateArguments self.now taken.number write.side write.key.now
            write.value.now }
        requires known { write.flags ≤ 2 }
        requires at { IsAt write.key.now place taken.chain.bodies }
        ensures ends { UpdateEnds self.now taken.number pass.old pass.new
            (verbs.Update write.entry.side write.entry.flags write.entry.key.now
            write.entry.value.now) result }
        ensures refuses { IfErr result (MayRefuse write.entry.flags) }
    {
        if write.flags == BPF_NOEXIST {
            self.table
                .refuse_update(pass, taken, write, None, Put::Exists, gate);
            return Err(PlainRefusal::Eexist);
        }
        if self.table.shape().kind.is_percpu() {
            self.table.write_key(pass, taken, place, write, None, gate);
            return Ok(());
        }
        self.replace(pass, taken, place, write, gate);
        Ok(())
    }

    /// An update of a key that is absent: where it may be added, a freelist gives an element for it.
    fn update_absent<R: Wait, G: Gate>(
        &self,
        rt: &R,
        pass: &mut Pass,
        taken: TakenBucket,
        write: Write,
        gate: &G,
    ) -> Result<(), PlainRefusal>
        requires inside { InBucket self.now taken.number pass.old taken.chain.bodies }
        requires spares { HasItsSpares pass.old }
        requires gives { AreUpdateArguments self.now taken.number write.side write.key.now
            write.value.now }
        requires known { write.flags ≤ 2 }
        requires absent { present write.key.now taken.chain.bodies ≡ None }
        ensures ends { UpdateEnds self.now taken.number pass.old pass.new
            (verbs.Update write.entry.side write.entry.flags write.entry.key.now
            write.entry.value.now) result }
        ensures refuses { IfErr result (MayRefuse write.entry.flags) }
    {
        if write.flags == BPF_EXIST {
            self.table
                .refuse_update(pass, taken, write, None, Put::Absent, gate);
            return Err(PlainRefusal::Enoent);
        }
        match self.pop(rt, pass, gate) {
            Some(body) => {
                self.table.add_key(pass, taken, write, body, gate);
                Ok(())
            }
            None => {
                self.table
                    .refuse_update(pass, taken, write, None, Put::Full, gate);
                Err(PlainRefusal::E2big)
            }
        }
    }

    /// Puts the CPU's spare element in the place of a present key's, which becomes the spare.
    fn replace<G: Gate>(
        &self,
        pass: &mut Pass,
        taken: TakenBucket,
        place: u32,
        write: Write,
        gate: &G,
    )
        requires inside { InBucket self.now taken.number pass.old taken.chain.bodies }
        requires spares { HasItsSpares pass.old }
        requires gives { AreUpdateArguments self.now taken.number write.side write.key.now
            write.value.now }
        requires known { write.flags ≤ 2 }
        requires at { IsAt write.key.now place taken.chain.bodies }
        requires single { is_percpu self.now.shape.kind ≡ false }
        requires replaces { write.flags ≢ 1 }
        ensures { AnsweredAt self.now taken.number pass.old pass.new
            (verbs.Update write.entry.side write.entry.flags write.entry.key.now
            write.entry.value.now) replies.Done }
    {
        let Some(body) = self.table.spare(pass) else {
            unreachable!()
        };
        let spare = self
            .table
            .replace_key(pass, taken, place, write, body, gate);
        self.table.keep_spare(pass, spare);
    }
}
