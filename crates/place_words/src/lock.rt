//! The locks of a map: their order, and their numbers.

ghost use Rattle.std.specs.Prelude.{◌≡◌, ◌<◌, IsTrue};
ghost use Rattle.map_types.specs.Creation.{IsShape};
ghost use Rattle.place_words.specs.Locks.{rank_of, lock_number, lock_named, lock_count, is_lock};

use map_types::{DomainId, Shape};

/// The rank of a lock, 1 to 4. A CPU takes a lock only above the ranks of all that it holds: its local lists first, then
/// the global lists or a list set of a CPU, then a bucket, then a freelist.
pub fn rank(lock: DomainId) -> u32
    ensures { result ≡ rank_of lock }
{
    match lock {
        DomainId::Local(_) => 1,
        DomainId::Global | DomainId::CpuLru(_) => 2,
        DomainId::Bucket(_) => 3,
        DomainId::Freelist(_) => 4,
    }
}

/// Whether a map has a lock. Every map has buckets. One that doesn't evict has a freelist for each CPU, and one that does
/// has either global lists with local ones for each CPU, or a list set for each CPU.
pub fn is_lock(shape: &Shape, lock: DomainId) -> bool
    ensures { result ≡ is_lock shape.now lock }
{
    match lock {
        DomainId::Local(cpu) => shape.common && cpu < shape.cpus,
        DomainId::Global => shape.common,
        DomainId::CpuLru(cpu) => shape.kind.is_lru() && !shape.common && cpu < shape.cpus,
        DomainId::Bucket(bucket) => bucket < shape.buckets,
        DomainId::Freelist(cpu) => !shape.kind.is_lru() && cpu < shape.cpus,
    }
}

/// The number of a lock of a map, below `3 * cpus + 1 + buckets`. No two locks have one number: those of local lists come
/// first, then the global one, then those of the CPUs' list sets, of the buckets, and of the freelists.
pub fn lock_number(shape: &Shape, lock: DomainId) -> u32
    requires shape { IsShape shape.now }
    requires lock { IsTrue (is_lock shape.now lock) }
    ensures exact { result ≡ lock_number shape.now lock }
    ensures within { result < lock_count shape.now }
    ensures one_to_one { lock_named shape.now result ≡ lock }
{
    let sets = shape.cpus + 1;
    let buckets = sets + shape.cpus;
    let freelists = buckets + shape.buckets;
    match lock {
        DomainId::Local(cpu) => cpu,
        DomainId::Global => shape.cpus,
        DomainId::CpuLru(cpu) => sets + cpu,
        DomainId::Bucket(bucket) => buckets + bucket,
        DomainId::Freelist(cpu) => freelists + cpu,
    }
}

/// The lock of a number, for a number that `lock_number` gives of this map.
#[tactic(auto, unfolding(crate::specs::Locks::lock_named))]
pub fn lock_named(shape: &Shape, number: u32) -> DomainId
    requires { IsShape shape.now }
    ensures { result ≡ lock_named shape.now number }
{
    let sets = shape.cpus + 1;
    let buckets = sets + shape.cpus;
    let freelists = buckets + shape.buckets;
    if number < shape.cpus {
        DomainId::Local(number)
    } else if number == shape.cpus {
        DomainId::Global
    } else if number < buckets {
        DomainId::CpuLru(number - sets)
    } else if number < freelists {
        DomainId::Bucket(number - buckets)
    } else {
        DomainId::Freelist(number - freelists)
    }
}
