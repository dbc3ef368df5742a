//! How a key's bucket is taken.

ghost use Rattle.lru_ops.specs.Under.{CanEnter, Enters};

use crate::map::LruMap;
use bucket_chain::Chain;
use map_types::Gate;
use place_table::Pass;
use std::sync::Wait;

impl LruMap {
    /// Takes a bucket.
    pub(crate) fn enter<R: Wait, G: Gate>(
        &self,
        rt: &R,
        pass: &mut Pass,
        bucket: u32,
        gate: &G,
    ) -> Chain
        requires { CanEnter self.now bucket pass.old }
        ensures { Enters self.now bucket pass.old pass.new result }
    {
        self.table.enter_bucket(rt, pass, bucket, gate)
    }
}
