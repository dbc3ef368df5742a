//! All bodies of a bucket, taken out and put back.

ghost use Rattle.std.specs.Prelude.{◌≡◌, ◌<◌, ◌^◌, [], IfOk, OnOk, length};
ghost use Rattle.place_words.specs.Bodies.{HasDistinctKeys};

use bucket_chain::Chain;
use map_types::NoMemory;
use percpu_values::BoxedBody;
use std::alloc::Global;

/// Takes all bodies out of a bucket, in order.
pub(crate) fn take_all(alloc: Global, chain: &mut Chain) -> Result<Vec<BoxedBody>, NoMemory>
    ensures bodies { IfOk result (λ bodies. bodies.items ≡ chain.old.bodies) }
    ensures few { IfOk result (λ bodies. length bodies.items < 2 ^ 32) }
    ensures none { OnOk result (chain.new.bodies ≡ []) }
    ensures distinct { HasDistinctKeys chain.old.bodies }
{
    let count = chain.len();
    let mut bodies = Vec::with_capacity(alloc, count as usize)?;
    for place in 0..count {
        let Some(body) = chain.take_out(0) else {
            unreachable!()
        };
        bodies.push(body)?;
    }
    Ok(bodies)
}

/// Puts bodies back into a bucket that is empty.
pub(crate) fn put_back(chain: &mut Chain, bodies: Vec<BoxedBody>)
    requires none { chain.old.bodies ≡ [] }
    requires distinct { HasDistinctKeys bodies.items }
    requires few { length bodies.items < 2 ^ 32 }
    ensures { chain.new.bodies ≡ bodies.items }
{
    let mut left = bodies;
    while let Some(body) = left.pop() {
        // That there is room is known once the bodies are counted.
        let _ = chain.len();
        chain.add_head(body);
    }
}
