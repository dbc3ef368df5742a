//! What a rotation and a shrink ask: the bits of elements, and the buckets in which elements are.

ghost use Rattle.std.specs.Prelude.{◌≡◌, ◌≢◌, ◌-◌, ◌≤◌, ◌⊎◌, ◌↔◌, ℕ, List, [], ◌∷◌, ◌++◌};
ghost use Rattle.map_types.specs.Stored.{Stored};
ghost use Rattle.map_types.specs.declared.row.Row.{Row};
ghost use Rattle.lru_lists.specs.declared.bits.BitCall.{BitCall};
ghost use Rattle.lru_lists.specs.declared.bits.ProbeCall.{ProbeCall};
ghost use Rattle.lru_lists.specs.Probes.{seen_of, IsHeld, IfRemoved};

use percpu_values::BoxedBody;
use place_words::{Seen, Visit};

/// A call on bits: the element, and what its bit was.
#[derive(Clone, Copy, Debug, PartialEq, Eq)]
pub enum BitCall {
    /// The bit was cleared.
    Cleared(Visit),
    /// It was only read.
    Read(Visit),
}

/// A probe of a row, and what it found.
#[derive(Clone, Copy, Debug, PartialEq, Eq)]
pub struct ProbeCall {
    pub element: u32,
    pub hash: u32,
    pub probed: Seen,
}

/// What a probe of an element found.
#[derive(Drop)]
pub enum Probed {
    /// It was in its bucket and was taken out.
    Removed(BoxedBody),
    /// It is in the hand of this CPU.
    Held(u32),
}

/// The bits of elements. A bit is set where an element was used since its bit was last cleared.
pub trait Bits {
    /// The calls so far with their answers, in order. Each call adds one at the end.
    ghost calls: { Self → List BitCall };

    /// Whether that many more calls can be noted, a probe counting as one.
    ghost can_note: { Self → ℕ → Type 0 };

    /// Whether an element may be asked of.
    ghost may_ask: { Self → ℕ → Type 0 };

    /// The ghost name of the reference that is lent to this object, by which who lent it learns what was done.
    ghost lender: { Self → ℕ };

    /// The probes so far with their answers, in order. Of an object that is no `Probe` there need be none.
    ghost probes: { Self → List ProbeCall } = { λ _. [] };

    /// Whether a row may be probed. Of an object that is no `Probe` none need be.
    ghost may_probe: { Self → Row → Type 0 } = { λ _ _. ⊥ };

    /// What is known of each body that a probe takes out of its bucket.
    ghost gives: { Self → Stored → Type 0 } = { λ _ _. Unit {0} };

    /// Clears the bit of an element, and says what it was.
    fn clear(&mut self, element: u32) -> bool
        requires noted { can_note self.old 1 }
        requires asked { may_ask self.old element }
        ensures call { calls self.new
            ≡ calls self.old ++ BitCall.Cleared (record { element = element; bit = result }) ∷ [] }
        ensures noted { (n : ℕ) → can_note self.old n → can_note self.new (n - 1) }
        ensures asked { (e : ℕ) → may_ask self.old e → may_ask self.new e }
        ensures probes { probes self.new ≡ probes self.old }
        ensures probed { (row : Row) → may_probe self.old row ↔ may_probe self.new row }
        ensures gives { (body : Stored) → gives self.old body ↔ gives self.new body }
        ensures lender { lender self.new ≡ lender self.old };

    /// The bit of an element.
    fn read(&mut self, element: u32) -> bool
        requires noted { can_note self.old 1 }
        requires asked { may_ask self.old element }
        ensures call { calls self.new
            ≡ calls self.old ++ BitCall.Read (record { element = element; bit = result }) ∷ [] }
        ensures noted { (n : ℕ) → can_note self.old n → can_note self.new (n - 1) }
        ensures asked { (e : ℕ) → may_ask self.old e → may_ask self.new e }
        ensures probes { probes self.new ≡ probes self.old }
        ensures probed { (row : Row) → may_probe self.old row ↔ may_probe self.new row }
        ensures gives { (body : Stored) → gives self.old body ↔ gives self.new body }
        ensures lender { lender self.new ≡ lender self.old };

    /// Where more calls can be noted, fewer can.
    ghost fewer: { (bits : Self) (m n : ℕ) → m ≤ n → can_note bits n → can_note bits m };
}

/// The bits of elements, and the buckets in which elements are.
pub trait Probe: Bits {
    /// Takes an element out of the bucket of its hash, or says in whose hand it is, as the kernel's
    /// `htab_lru_map_delete_node`.
    fn evict(&mut self, element: u32, hash: u32) -> Probed
        requires noted { Self.can_note self.old 1 }
        requires probed { Self.may_probe self.old (record { element = element; hash = hash }) }
        ensures probe { Self.probes self.new
            ≡ Self.probes self.old
            ++ record { element = element; hash = hash; probed = seen_of result } ∷ [] }
        ensures calls { Self.calls self.new ≡ Self.calls self.old }
        ensures noted { (n : ℕ) → Self.can_note self.old n → Self.can_note self.new (n - 1) }
        ensures asked { (e : ℕ) → Self.may_ask self.old e → Self.may_ask self.new e }
        ensures others { (row : Row) → row ≢ record { element = element; hash = hash }
            → Self.may_probe self.old row → Self.may_probe self.new row }
        ensures held { IsHeld result
            → Self.may_probe self.new (record { element = element; hash = hash }) }
        ensures body { IfRemoved result (λ body. body.element ≡ element) }
        ensures given { IfRemoved result (Self.gives self.new) }
        ensures gives { (body : Stored) → Self.gives self.old body ↔ Self.gives self.new body }
        ensures lender { Self.lender self.new ≡ Self.lender self.old };
}
