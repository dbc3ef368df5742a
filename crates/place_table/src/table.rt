//! The table that the CPUs of a map share.

ghost use Rattle.std.specs.Prelude.{ℕ, ◌≡◌, ◌+◌, ◌*◌, ◌<◌, ◌^◌, true, [], MatchOption, IsTrue, if◌then◌else◌};
ghost use Rattle.map_types.specs.Kind.{is_lru};
ghost use Rattle.place_words.specs.Locks.{lock_number, lock_count, is_lock};
ghost use Rattle.place_table.specs.Views.{is_among, is_in_hand_of};
ghost use Rattle.place_table.specs.Words.{word_count, owner_word, home_word, bit_word, ticket_word};
ghost use Rattle.place_table.specs.Passes.{IsPassOf, HasBegun, HasOnlySpares, begun, CanTake, TookLock, CanGive, CanGiveSome, MayGiveBack, Gave, GaveSome, GaveBack, CanClaim, Claimed, CanSettle, Settled, CanAttach, Attached, CanDetach, Detached, CanMark, Marked, CanRehome, Rehomed, CanClear, CanLook, Cleared, SawBit, SawOwner, SawHome, SawTicket, IsInNoCall};

use crate::content::{Behind, Content};
use crate::gate_points::{At, Points};
use crate::homes::rehome_word;
use crate::owners::{attach_word, claim_word, detach_word, settle_word};
use crate::pass::Pass;
use crate::rule::Law;
use crate::steps::{
    clear_bit, give_lock, lose_lock, put_back, put_unrecorded, read_bit, read_home, read_owner,
    read_ticket, set_bit, take_lock, take_ticket, unload,
};
use crate::view::View;
use atomic_table::Table;
use map_types::{DomainId, Gate, Point, Shape};
use place_words::{Entry, Home, Owner, Part, home_of_code, lock_number, owner_of_code};
use std::alloc::Global;
use std::marker::{Brand, Model};
use std::sync::Wait;

/// The locks of a map with what lies under them, and the owners, homes and bits of its elements. It may be shared by
/// threads, each of which has a pass. Contracts see its shape and which table it is.
#[derive(Drop)]
pub struct PlaceTable {
    pub(crate) table: Table<Behind, View, Shape, Law, Global>,
    pub(crate) shape: Shape,
    pub(crate) alloc: Global,
}

impl Model for PlaceTable {
    ghost use Rattle.std.specs.Prelude.{◌≡◌};
    ghost use Rattle.map_types.specs.Creation.{IsShape};
    ghost use Rattle.place_table.specs.Passes.{TableView};
    ghost use Rattle.place_table.specs.Words.{word_count};

    ghost Value = { TableView };

    ghost view = { λ t. record { id = t.table.shared.table_id; shape = t.shape } };

    ghost invariant = { λ t. (t.table.shared.key ≡ t.shape)
        × (t.table.shared.table_id.words ≡ word_count t.shape) × IsShape t.shape };
}

impl PlaceTable {
    /// The shape that the table was created with.
    pub fn shape(&self) -> &Shape
        ensures { result.now ≡ self.now.shape }
    {
        &self.shape
    }

    /// The allocator that the table was created with, and keeps. Entries take their memory from it.
    pub fn alloc(&self) -> Global {
        self.alloc
    }

    /// Starts a call on a CPU of the pass, which holds no lock and has nothing in hand but spares. Calls are named by numbers
    /// of the caller's.
    pub fn begin(&self, pass: &mut Pass, cpu: u32, call: u32)
        requires table { IsPassOf self.now pass.old }
        requires cpu { is_among cpu pass.old.view.cpus ≡ true }
        requires no_lock { pass.old.view.held ≡ [] }
        requires spares { HasOnlySpares pass.old }
        ensures { pass.new ≡ begun pass.old cpu call }
    {
        pass.cpu = cpu;
        pass.call = call;
    }

    /// The CPU of the pass's last `begin`, which is one of the map's. What is in its hand are elements of the map.
    pub fn cpu_of(&self, pass: &Pass) -> u32
        requires table { IsPassOf self.now pass.now }
        requires begun { HasBegun pass.now }
        ensures value { result ≡ pass.now.cpu }
        ensures within { result < self.now.shape.cpus }
        ensures real { (e : ℕ) → is_in_hand_of e pass.now.cpu pass.now.view.hand ≡ true
            → e < self.now.shape.elements }
    {
        pass.cpu
    }

    /// Waits for a lock of the map, above all that the pass holds, and takes what lies under it.
    #[inline(always)]
    pub fn take<R: Wait, G: Gate>(
        &self,
        rt: &R,
        pass: &mut Pass,
        lock: DomainId,
        gate: &G,
    ) -> Content
        requires { CanTake self.now lock pass.old }
        ensures { TookLock self.now lock pass.old pass.new result }
    {
        self.take_at(rt, pass, lock, &At { gate })
    }

    /// The same, where points are told by this thread alone.
    #[inline(always)]
    pub fn take_at<R: Wait, P: Points>(
        &self,
        rt: &R,
        pass: &mut Pass,
        lock: DomainId,
        points: &P,
    ) -> Content
        requires { CanTake self.now lock pass.old }
        ensures { TookLock self.now lock pass.old pass.new result }
    {
        let shared = &self.table.shared;
        let number = lock_number(&self.shape, lock);
        take_lock(rt, shared, &mut pass.seat, number, pass.cpu);
        points.point(pass.cpu, Point::Took(lock));
        match unload(shared, &mut pass.seat, number) {
            Some(content) => content,
            None => unreachable!(),
        }
    }

    /// Gives back the lock that the pass took last, with a content to which an allowed part leads. A ticket is drawn for the
    /// turn first, and the part is recorded with it where there is memory for that. Where there is none, or no part, or the
    /// ticket word is found at 2^63 or more, the record of this lock's turns is lost for good.
    #[inline(always)]
    pub fn give<G: Gate>(
        &self,
        pass: &mut Pass,
        lock: DomainId,
        content: Content,
        part: Option<Part>,
        gate: &G,
    )
        requires { MayGiveBack self.now lock pass.old content part }
        ensures { GaveBack self.now lock pass.old pass.new content part }
    {
        self.give_at(pass, lock, content, part, &At { gate })
    }

    /// The same, where points are told by this thread alone.
    #[inline(always)]
    pub fn give_at<P: Points>(
        &self,
        pass: &mut Pass,
        lock: DomainId,
        content: Content,
        part: Option<Part>,
        points: &P,
    )
        requires { MayGiveBack self.now lock pass.old content part }
        ensures { GaveBack self.now lock pass.old pass.new content part }
    {
        match part {
            Some(part) => self.give_part(pass, lock, content, part),
            None => self.give_none(pass, lock, content),
        }
        points.point(pass.cpu, Point::Gave(lock));
    }

    /// Gives the lock back with a part, which is recorded where there is memory.
    #[inline(always)]
    fn give_part(&self, pass: &mut Pass, lock: DomainId, content: Content, part: Part)
        requires { CanGive self.now lock pass.old content part }
        ensures { Gave pass.old pass.new part }
    {
        let shared = &self.table.shared;
        let number = lock_number(&self.shape, lock);
        let ticket = take_ticket(shared, &mut pass.seat, self.ticket_word());
        let entry = Entry {
            ticket: ticket.unwrap_or(0),
            cpu: pass.cpu,
            call: pass.call,
            part,
        };
        let lost = put_back(
            shared,
            &mut pass.seat,
            number,
            content,
            &ticket,
            &mut pass.strand,
            &mut pass.made.log,
            lock,
            entry,
        );
        give_lock::<Brand>(
            shared,
            &mut pass.seat,
            number,
            &lost,
            &pass.made.log,
            &pass.strand,
        );
    }

    /// Gives the lock back with no part. Its history is lost.
    fn give_none(&self, pass: &mut Pass, lock: DomainId, content: Content)
        requires { CanGiveSome self.now lock pass.old content }
        ensures { GaveSome self.now lock pass.old pass.new content }
    {
        let shared = &self.table.shared;
        let number = lock_number(&self.shape, lock);
        let _ = take_ticket(shared, &mut pass.seat, self.ticket_word());
        put_unrecorded(shared, &mut pass.seat, number, content);
        lose_lock::<Brand>(shared, &mut pass.seat, number, pass.cpu, pass.call);
    }

    /// Takes the head of a lock's free list into the hand of the CPU, which holds the lock.
    pub fn claim(&self, pass: &mut Pass, element: u32, lock: DomainId)
        requires { CanClaim self.now element lock pass.old }
        ensures { Claimed lock element pass.old pass.new }
    {
        let shared = &self.table.shared;
        let word = self.owner_word(element);
        claim_word::<Brand>(shared, &mut pass.seat, element, word, lock, pass.cpu);
    }

    /// Puts an element from the CPU's hand to the head of the free list of a lock that the CPU holds.
    pub fn settle(&self, pass: &mut Pass, element: u32, lock: DomainId)
        requires { CanSettle self.now element lock pass.old }
        ensures { Settled lock element pass.old pass.new }
    {
        let shared = &self.table.shared;
        let cpu = pass.cpu;
        let word = self.owner_word(element);
        settle_word::<Brand>(shared, &mut pass.seat, element, word, lock, cpu);
    }

    /// Puts an element from the CPU's hand to the head of a bucket that the CPU holds. On a map that evicts the CPU doesn't
    /// carry it.
    pub fn attach(&self, pass: &mut Pass, element: u32, bucket: u32)
        requires { CanAttach self.now element bucket pass.old }
        ensures { Attached bucket element pass.old pass.new }
    {
        let shared = &self.table.shared;
        let cpu = pass.cpu;
        let word = self.owner_word(element);
        attach_word::<Brand>(shared, &mut pass.seat, element, word, bucket, cpu);
    }

    /// Takes an element of a bucket that the CPU holds into the CPU's hand.
    pub fn detach(&self, pass: &mut Pass, element: u32, bucket: u32)
        requires { CanDetach self.now element bucket pass.old }
        ensures { Detached bucket element pass.old pass.new }
    {
        let shared = &self.table.shared;
        let word = self.owner_word(element);
        detach_word::<Brand>(shared, &mut pass.seat, element, word, bucket, pass.cpu);
    }

    /// Takes an element from its home to the head of another, on a map whose CPUs share its lists: a lock that the CPU holds,
    /// or its hand.
    pub fn rehome(&self, pass: &mut Pass, element: u32, to: Home)
        requires { CanRehome self.now element to pass.old }
        ensures { Rehomed self.now element to pass.old pass.new }
    {
        let shared = &self.table.shared;
        let word = self.home_word(element);
        rehome_word::<Brand>(shared, &mut pass.seat, element, word, to, pass.cpu);
    }

    /// Sets the bit of an element of a bucket that the CPU holds.
    pub fn mark(&self, pass: &mut Pass, element: u32, bucket: u32)
        requires { CanMark self.now element bucket pass.old }
        ensures { Marked element pass.old pass.new }
    {
        let word = self.bit_word(element);
        set_bit::<Brand>(&self.table.shared, &mut pass.seat, element, word, bucket);
    }

    /// Clears the bit of an element, and answers what it was. It is one in the CPU's hand, or on the lists of a lock that the CPU
    /// holds.
    pub fn clear(&self, pass: &mut Pass, element: u32) -> bool
        requires { CanClear self.now element pass.old }
        ensures { Cleared element pass.old pass.new result }
    {
        let word = self.bit_word(element);
        clear_bit::<Brand>(&self.table.shared, &mut pass.seat, element, word, pass.cpu) == 1
    }

    /// The bit of an element.
    pub fn bit_of(&self, pass: &mut Pass, element: u32) -> bool
        requires { CanLook self.now element pass.old }
        ensures { SawBit element pass.old pass.new result }
    {
        let word = self.bit_word(element);
        read_bit::<Brand>(&self.table.shared, &mut pass.seat, element, word) == 1
    }

    /// The home of an element. A map that doesn't evict tells none. Where each CPU has a list set of its own, it is the set in
    /// which the element lives. Where it is local lists, contracts see too how many turns their lock had had.
    pub fn home_of(&self, pass: &mut Pass, element: u32) -> Home
        requires { CanLook self.now element pass.old }
        ensures { SawHome self.now element pass.old pass.new result }
    {
        let word = self.home_word(element);
        match home_of_code(read_home::<Brand>(&self.table.shared, &mut pass.seat, element, word)) {
            Some(home) => home,
            None => unreachable!(),
        }
    }

    /// The owner of an element.
    pub fn owner_of(&self, pass: &mut Pass, element: u32) -> Owner
        requires { CanLook self.now element pass.old }
        ensures { SawOwner self.now element pass.old pass.new result }
    {
        let word = self.owner_word(element);
        match owner_of_code(read_owner::<Brand>(
            &self.table.shared,
            &mut pass.seat,
            element,
            word,
        )) {
            Some(owner) => owner,
            None => unreachable!(),
        }
    }

    /// What the ticket word is, by one load: what the pass knows it to have reached. The pass has all CPUs and is in no call.
    /// From then on it knows the turns of every lock.
    pub fn ticket_now(&self, pass: &mut Pass) -> u64
        requires table { IsPassOf self.now pass.old }
        requires all_cpus { (c : ℕ) → c < self.now.shape.cpus → is_among c pass.old.view.cpus ≡ true }
        requires in_no_call { IsInNoCall pass.old }
        ensures { SawTicket pass.old pass.new result }
    {
        read_ticket(&self.table.shared, &mut pass.seat, self.ticket_word())
    }

    /// How many locks are numbered.
    fn locks(&self) -> usize
        ensures exact { result ≡ lock_count self.now.shape }
        ensures within { result < 2 ^ 32 }
    {
        (3 * self.shape.cpus + 1 + self.shape.buckets) as usize
    }

    /// The word that tells an element's owner.
    fn owner_word(&self, element: u32) -> usize
        requires { element < self.now.shape.elements }
        ensures { result ≡ owner_word self.now.shape element }
    {
        self.locks() + element as usize
    }

    /// The word that tells an element's home.
    fn home_word(&self, element: u32) -> usize
        requires { element < self.now.shape.elements }
        ensures { result ≡ home_word self.now.shape element }
    {
        self.locks() + self.shape.elements as usize + element as usize
    }

    /// The word that tells an element's bit.
    fn bit_word(&self, element: u32) -> usize
        requires { element < self.now.shape.elements }
        ensures { result ≡ bit_word self.now.shape element }
    {
        self.locks() + 2 * self.shape.elements as usize + element as usize
    }

    /// The word that tickets are drawn from.
    fn ticket_word(&self) -> usize
        ensures { result ≡ ticket_word self.now.shape }
    {
        self.locks() + 3 * self.shape.elements as usize
    }
}
