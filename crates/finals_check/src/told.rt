//! Whether the finals of a record tell what lies under each lock.

ghost use Rattle.std.specs.Prelude.{◌≡◌, All, IsTrue, MatchBool, slice_get};
ghost use Rattle.finals_check.specs.Telling.{AreTold, IsTold, BucketTold, FreelistTold, LocalTold, SetTold, SparesTold};

use map_types::{DomainId, List, Numbers};
use part_tests::Same;
use place_words::{Finals, Kept, LocalFinal, SetFinal};

/// What lies under a lock, by the sort of the lock: a CPU's local lists, the global lists, a CPU's own lists, a bucket, or a
/// freelist.
#[derive(Drop)]
pub enum Lying {
    Local(LocalFinal),
    Global(SetFinal),
    Own(SetFinal),
    Bucket(List<Kept>),
    Freelist(Numbers),
}

/// A lock, and what lies under it.
#[derive(Drop)]
pub struct Lies {
    pub lock: DomainId,
    pub content: Lying,
}

/// Whether the finals tell of each of these locks what lies there.
pub fn finals_told(finals: &Finals, contents: &[Lies]) -> bool
    ensures { MatchBool result (AreTold finals.now contents.now) (AreTold finals.now contents.now → ⊥) }
{
    for lies in contents {
        if !is_told(finals, lies) {
            return false;
        }
    }
    true
}

/// Whether the finals tell of a lock what lies there.
pub fn is_told(finals: &Finals, lies: &Lies) -> bool
    ensures { MatchBool result (IsTold finals.now lies.now.lock lies.now.content) (IsTold finals.now lies.now.lock lies.now.content → ⊥) }
{
    match &lies.content {
        Lying::Local(local) => match lies.lock {
            DomainId::Local(cpu) => is_local(finals.locals.as_slice(), cpu, local),
            _ => false,
        },
        Lying::Global(set) => match lies.lock {
            DomainId::Global => is_set(finals.sets.as_slice(), 0, set),
            _ => false,
        },
        Lying::Own(set) => match lies.lock {
            DomainId::CpuLru(cpu) => is_set(finals.sets.as_slice(), cpu, set),
            _ => false,
        },
        Lying::Bucket(bucket) => match lies.lock {
            DomainId::Bucket(number) => is_bucket(finals.buckets.as_slice(), number, bucket),
            _ => false,
        },
        Lying::Freelist(freelist) => match lies.lock {
            DomainId::Freelist(cpu) => is_freelist(finals.freelists.as_slice(), cpu, freelist),
            _ => false,
        },
    }
}

/// Whether a CPU has these local lists.
fn is_local(locals: &[LocalFinal], cpu: u32, told: &LocalFinal) -> bool
    ensures { MatchBool result (LocalTold locals.now cpu told.now) (LocalTold locals.now cpu told.now → ⊥) }
{
    match locals.get(cpu as usize) {
        Some(local) => local.same(told),
        None => false,
    }
}

/// Whether these are the lists of a number.
fn is_set(sets: &[SetFinal], number: u32, told: &SetFinal) -> bool
    ensures { MatchBool result (SetTold sets.now number told.now) (SetTold sets.now number told.now → ⊥) }
{
    match sets.get(number as usize) {
        Some(set) => set.same(told),
        None => false,
    }
}

/// Whether this is the bucket of a number, which is empty where it has none.
fn is_bucket(buckets: &[List<Kept>], number: u32, told: &List<Kept>) -> bool
    ensures { MatchBool result (BucketTold buckets.now number told.now) (BucketTold buckets.now number told.now → ⊥) }
{
    match buckets.get(number as usize) {
        Some(bucket) => bucket.same(told),
        None => told.as_slice().is_empty(),
    }
}

/// Whether this is the freelist of a CPU, which is empty where it has none.
fn is_freelist(freelists: &[Numbers], cpu: u32, told: &Numbers) -> bool
    ensures { MatchBool result (FreelistTold freelists.now cpu told.now) (FreelistTold freelists.now cpu told.now → ⊥) }
{
    match freelists.get(cpu as usize) {
        Some(freelist) => freelist.same(told),
        None => told.as_slice().is_empty(),
    }
}

/// Whether each CPU has the spare that is left to it.
pub fn spares_told(finals: &Finals, left: &[Option<u32>]) -> bool
    ensures { MatchBool result (SparesTold finals.now left.now) (SparesTold finals.now left.now → ⊥) }
{
    let spares = finals.spares.as_slice();
    if left.len() < spares.len() {
        return false;
    }
    for cpu in 0..left.len() {
        if !is_spare(spares, cpu, left[cpu]) {
            return false;
        }
    }
    true
}

/// Whether this is the spare of a CPU.
fn is_spare(spares: &[u32], cpu: usize, left: Option<u32>) -> bool
    ensures { MatchBool result (left ≡ slice_get spares.now cpu) (left ≡ slice_get spares.now cpu → ⊥) }
{
    match spares.get(cpu) {
        Some(spare) => left == Some(*spare),
        None => left.is_none(),
    }
}
