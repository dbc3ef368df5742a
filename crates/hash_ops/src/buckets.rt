//! How a key's bucket is taken, and what becomes of an element that was taken out of it.

ghost use Rattle.std.specs.Prelude.{◌≡◌, ◌<◌};
ghost use Rattle.hash_ops.specs.Calls.{CanCall};
ghost use Rattle.hash_ops.specs.Free.{CanPush, Pushed};
ghost use Rattle.hash_ops.specs.Under.{Enters};

use crate::map::PlainMap;
use bucket_chain::Chain;
use map_types::Gate;
use percpu_values::BoxedBody;
use place_table::Pass;
use std::sync::Wait;

impl PlainMap {
    /// Takes a bucket.
    pub(crate) fn enter<R: Wait, G: Gate>(
        &self,
        rt: &R,
        pass: &mut Pass,
        bucket: u32,
        gate: &G,
    ) -> Chain
        requires can { CanCall self.now pass.old }
        requires there { bucket < self.now.shape.buckets }
        ensures { Enters self.now bucket pass.old pass.new result }
    {
        self.table.enter_bucket(rt, pass, bucket, gate)
    }

    /// Pushes the element of a body that was taken out of a bucket, which is still held.
    pub(crate) fn push_out<R: Wait, G: Gate>(
        &self,
        rt: &R,
        pass: &mut Pass,
        body: BoxedBody,
        gate: &G,
    ) -> u32
        requires { CanPush self.now body pass.old }
        ensures element { result ≡ body.element }
        ensures pushed { Pushed self.now body pass.old pass.new }
    {
        let element = body.body().element();
        self.push(rt, pass, body, gate);
        element
    }
}
