//! Steps on the owner of an element, by the seat of a pass: it comes to the hand of a CPU that holds a lock, or leaves it.

ghost use Rattle.std.specs.Prelude.{◌≡◌, ◌<◌, ℕ, true, false, IsTrue, IsFalse, Some};
ghost use Rattle.map_types.specs.Kind.{is_lru};
ghost use Rattle.map_types.specs.declared.kind.DomainId.TheVariants as locks;
ghost use Rattle.place_words.specs.Codes.{HasOwnerCode};
ghost use Rattle.place_words.specs.declared.owner.Owner.TheVariants as owners;
ghost use Rattle.place_words.specs.Locks.{lock_number, is_lock};
ghost use Rattle.map_types.specs.ElementLists.{IsIn, IsHead};
ghost use Rattle.place_words.specs.State.{rows, is_bucket};
ghost use Rattle.place_table.specs.declared.view.Hold.{Hold};
ghost use Rattle.place_table.specs.Views.{is_among, hold_at, is_in_hand_of, moved, with_hashes, claimed, settled, attached, detached};
ghost use Rattle.place_table.specs.Words.{word_count, owner_word};
ghost use Rattle.place_table.specs.declared.view.Ticket.TheVariants.{Unread};
ghost use Rattle.place_table.specs.Owners.{IsUnchangedAround, IsFreeAround};
ghost use Rattle.place_table.specs.Plays.{Claims, Settles, Attaches, Detaches, IsHashedInto};

use crate::rule::{Deed, Moving, SharedTable, TableSeat};
use map_types::DomainId;
use place_words::{Owner, owner_code};

/// Takes the head of a lock's free list into the hand of the CPU that holds the lock.
pub(crate) fn claim_word<N: Deed>(
    shared: &SharedTable,
    seat: &mut TableSeat,
    element: u32,
    word: usize,
    lock: DomainId,
    cpu: u32,
)
    requires table { seat.old.table_id ≡ shared.now.table_id }
    requires words { (shared.now.table_id.words ≡ word_count shared.now.key)
        × (word ≡ owner_word shared.now.key element) }
    requires deed { (at : ℕ)
        → with_hashes N.hashes (moved at N.lock N.now N.hand N.notes N.word N.left seat.old.me.0)
        ≡ claimed at lock element cpu seat.old.me.0 }
    requires lock { (hold : Hold) × IsTrue (is_lock shared.now.key lock)
        × (hold_at (lock_number shared.now.key lock) seat.old.me.0.held ≡ Some hold)
        × (hold.cpu ≡ cpu) × IsHead element hold.now.free }
    requires element { element < shared.now.key.elements }
    requires code { HasOwnerCode (owners.Hand cpu) }
    requires unread { seat.old.me.0.ticket ≡ Unread }
    requires around { IsTrue (is_lru shared.now.key.kind) → IsUnchangedAround seat.old.me.0 element }
    ensures seat { (seat.new.table_id ≡ seat.old.table_id) × (seat.new.id ≡ seat.old.id) }
    ensures claimed { Claims lock element cpu seat.old.me seat.new.me }
{
    // Only the clauses name these.
    let _ = lock;
    let _ = element;
    shared.store::<Moving<N>>(seat, word, owner_code(Owner::Hand(cpu)));
}

/// Puts an element from the hand of the CPU that holds a lock to the head of the lock's free list.
pub(crate) fn settle_word<N: Deed>(
    shared: &SharedTable,
    seat: &mut TableSeat,
    element: u32,
    word: usize,
    lock: DomainId,
    cpu: u32,
)
    requires table { seat.old.table_id ≡ shared.now.table_id }
    requires words { (shared.now.table_id.words ≡ word_count shared.now.key)
        × (word ≡ owner_word shared.now.key element) }
    requires deed { (at : ℕ)
        → with_hashes N.hashes (moved at N.lock N.now N.hand N.notes N.word N.left seat.old.me.0)
        ≡ settled at lock element cpu seat.old.me.0 }
    requires lock { (hold : Hold) × IsTrue (is_lock shared.now.key lock)
        × (hold_at (lock_number shared.now.key lock) seat.old.me.0.held ≡ Some hold)
        × (hold.cpu ≡ cpu) × (IsTrue (is_lru shared.now.key.kind) → IsIn element (rows hold.now)) }
    requires has_free_list { IsFalse (is_bucket lock) }
    requires element { element < shared.now.key.elements }
    requires hand { (is_among cpu seat.old.me.0.cpus ≡ true)
        × (is_in_hand_of element cpu seat.old.me.0.hand ≡ true) }
    requires unread { seat.old.me.0.ticket ≡ Unread }
    requires around { IsTrue (is_lru shared.now.key.kind) → IsFreeAround seat.old.me.0 element }
    ensures seat { (seat.new.table_id ≡ seat.old.table_id) × (seat.new.id ≡ seat.old.id) }
    ensures settled { Settles lock element cpu seat.old.me seat.new.me }
{
    // Only the clauses name these.
    let _ = lock;
    let _ = element;
    let _ = cpu;
    shared.store::<Moving<N>>(seat, word, owner_code(Owner::Free));
}

/// Puts an element from the hand of the CPU that holds a bucket to the head of the bucket.
pub(crate) fn attach_word<N: Deed>(
    shared: &SharedTable,
    seat: &mut TableSeat,
    element: u32,
    word: usize,
    bucket: u32,
    cpu: u32,
)
    requires table { seat.old.table_id ≡ shared.now.table_id }
    requires words { (shared.now.table_id.words ≡ word_count shared.now.key)
        × (word ≡ owner_word shared.now.key element) }
    requires deed { (at : ℕ)
        → with_hashes N.hashes (moved at N.lock N.now N.hand N.notes N.word N.left seat.old.me.0)
        ≡ attached at bucket element cpu seat.old.me.0 }
    requires bucket { (hold : Hold) × (bucket < shared.now.key.buckets)
        × (hold_at (lock_number shared.now.key (locks.Bucket bucket)) seat.old.me.0.held
        ≡ Some hold) × (hold.cpu ≡ cpu) }
    requires element { element < shared.now.key.elements }
    requires code { HasOwnerCode (owners.Bucket bucket) }
    requires hand { (is_among cpu seat.old.me.0.cpus ≡ true)
        × (is_in_hand_of element cpu seat.old.me.0.hand ≡ true) }
    requires not_carried { IsTrue (is_lru shared.now.key.kind)
        → is_in_hand_of element cpu seat.old.me.0.carried ≡ false }
    requires hashed { IsTrue (is_lru shared.now.key.kind)
        → IsHashedInto shared.now.key seat.old.me.0 bucket element cpu }
    requires unread { seat.old.me.0.ticket ≡ Unread }
    requires around { IsTrue (is_lru shared.now.key.kind) → IsFreeAround seat.old.me.0 element }
    ensures seat { (seat.new.table_id ≡ seat.old.table_id) × (seat.new.id ≡ seat.old.id) }
    ensures attached { Attaches bucket element cpu seat.old.me seat.new.me }
{
    // Only the clauses name these.
    let _ = element;
    let _ = cpu;
    shared.store::<Moving<N>>(seat, word, owner_code(Owner::Bucket(bucket)));
}

/// Takes an element of a bucket into the hand of the CPU that holds the bucket.
pub(crate) fn detach_word<N: Deed>(
    shared: &SharedTable,
    seat: &mut TableSeat,
    element: u32,
    word: usize,
    bucket: u32,
    cpu: u32,
)
    requires table { seat.old.table_id ≡ shared.now.table_id }
    requires words { (shared.now.table_id.words ≡ word_count shared.now.key)
        × (word ≡ owner_word shared.now.key element) }
    requires deed { (at : ℕ)
        → with_hashes N.hashes (moved at N.lock N.now N.hand N.notes N.word N.left seat.old.me.0)
        ≡ detached at bucket element cpu seat.old.me.0 }
    requires bucket { (hold : Hold) × (bucket < shared.now.key.buckets)
        × (hold_at (lock_number shared.now.key (locks.Bucket bucket)) seat.old.me.0.held
        ≡ Some hold) × (hold.cpu ≡ cpu) × IsIn element hold.now.first }
    requires element { element < shared.now.key.elements }
    requires code { HasOwnerCode (owners.Hand cpu) }
    requires unread { seat.old.me.0.ticket ≡ Unread }
    requires around { IsTrue (is_lru shared.now.key.kind) → IsFreeAround seat.old.me.0 element }
    ensures seat { (seat.new.table_id ≡ seat.old.table_id) × (seat.new.id ≡ seat.old.id) }
    ensures detached { Detaches bucket element cpu seat.old.me seat.new.me }
{
    // Only the clauses name these.
    let _ = bucket;
    let _ = element;
    shared.store::<Moving<N>>(seat, word, owner_code(Owner::Hand(cpu)));
}
