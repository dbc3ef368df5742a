//! Who has an element.

ghost use Rattle.std.specs.Prelude.{◌≡◌, ◌≢◌, MatchOption};
ghost use Rattle.place_words.specs.Codes.{HasOwnerCode, owner_code};
ghost use Rattle.place_words.specs.Openings.{is_free};
ghost use Rattle.place_words.specs.declared.owner.Owner as owners;

/// Who has an element.
#[derive(Clone, Copy, Debug, PartialEq, Eq)]
pub enum Owner {
    /// It is on a free list.
    Free,
    /// It is in the bucket of this number, which is below 131,072.
    Bucket(u32),
    /// A CPU works on it, or keeps it as its spare. CPUs are numbered below 16.
    Hand(u32),
}

/// Whether an owner is none: the element is free.
pub fn is_free(owner: Owner) -> bool
    ensures { result ≡ is_free owner }
{
    matches!(owner, Owner::Free)
}

/// The number by which an owner is kept: 0 for free, 1 and the CPU for a hand, 32 and the bucket for a bucket.
pub fn owner_code(owner: Owner) -> u64
    requires { HasOwnerCode owner }
    ensures exact { result ≡ owner_code owner }
    ensures one_to_one { (other : owners.Owner) → HasOwnerCode other → owner_code other ≡ result
        → other ≡ owner }
{
    match owner {
        Owner::Free => 0,
        Owner::Hand(cpu) => 1 + u64::from(cpu),
        Owner::Bucket(bucket) => 32 + u64::from(bucket),
    }
}

/// The owner that a number stands for, or None where it stands for none.
pub fn owner_of_code(code: u64) -> Option<Owner>
    ensures { MatchOption result
        ((owner : owners.Owner) → HasOwnerCode owner → owner_code owner ≢ code)
        (λ owner. HasOwnerCode owner × (owner_code owner ≡ code)) }
{
    match code {
        0 => Some(Owner::Free),
        1..=16 => Some(Owner::Hand((code - 1) as u32)),
        32..=131_103 => Some(Owner::Bucket((code - 32) as u32)),
        _ => None,
    }
}
