//! The rule of the table, and what each of its steps tells.

use crate::content::Behind;
use crate::view::View;
use atomic_table::{Join, Play, Seat, Shared, Split, TableRule};
use map_types::Shape;
use std::marker::{Brand, PhantomData};

pub struct Law;

impl TableRule<Behind, View, Shape> for Law {
    ghost use Rattle.place_table.specs.Rules.{Rule};
    ghost use Rattle.place_table.specs.Views.{first_view};

    ghost holds = { λ shape s. Rule shape s };

    ghost first = { λ shape. first_view shape };
}

pub type SharedTable = Shared<Behind, View, Shape, Law>;

pub type TableSeat = Seat<Behind, View>;

/// A lock is tried.
pub struct Trying;

impl Play<Behind, View> for Trying {
    ghost use Rattle.place_table.specs.Plays.{Tries};

    ghost then = { Tries };
}

/// What a lock is given back with, which its word doesn't tell: the entry, and the steps that are recorded then.
pub trait Turn {
    ghost use Rattle.std.specs.Prelude.{List};
    ghost use Rattle.place_words.specs.declared.history.Entry.{Entry};
    ghost use Rattle.place_words.specs.declared.history.StrandStep.{StrandStep};

    ghost entry: { Entry };

    ghost kept: { List StrandStep };
}

impl Turn for Brand {
    ghost use Rattle.std.specs.Prelude.{[]};
    ghost use Rattle.place_words.specs.declared.history.Part.TheVariants as parts;
    ghost use Rattle.place_words.specs.declared.free_part.FreePart.TheVariants.{FoundEmpty};

    ghost entry = { record { ticket = 0; cpu = 0; call = 0; part = parts.Free FoundEmpty } };

    ghost kept = { [] };
}

/// A lock is given back, and its turn recorded where there was memory.
pub struct Giving<N> {
    about: PhantomData<N>,
}

impl<N: Turn> Play<Behind, View> for Giving<N> {
    ghost use Rattle.place_table.specs.Plays.{GivesBack};

    ghost then = { λ st me n after. GivesBack N.entry N.kept me after };
}

/// The CPU and the call that give a lock back with nothing recorded.
pub trait Caller {
    ghost use Rattle.std.specs.Prelude.{ℕ};

    ghost cpu: { ℕ };

    ghost call: { ℕ };
}

impl Caller for Brand {
    ghost cpu = { 0 };

    ghost call = { 0 };
}

/// A lock is given back with nothing recorded.
pub struct Losing<N> {
    about: PhantomData<N>,
}

impl<N: Caller> Play<Behind, View> for Losing<N> {
    ghost use Rattle.place_table.specs.Plays.{GivesSome};

    ghost then = { λ st me n after. GivesSome N.cpu N.call me after };
}

/// What lies under a lock once an element has moved, what is in the hands of the pass then, what it has noted of its turns, and
/// the word that tells it, with what it is from then on.
pub trait Deed {
    ghost use Rattle.std.specs.Prelude.{ℕ, List};
    ghost use Rattle.place_words.specs.declared.step.Lists.{Lists};
    ghost use Rattle.place_table.specs.declared.view.InHand.{InHand};
    ghost use Rattle.place_table.specs.declared.view.HashIn.{HashIn};
    ghost use Rattle.place_table.specs.declared.view.Notes.{Notes};

    ghost lock: { ℕ };

    ghost now: { Lists };

    ghost hand: { List InHand };

    ghost hashes: { List HashIn };

    ghost notes: { List Notes };

    ghost word: { ℕ };

    ghost left: { ℕ };
}

impl Deed for Brand {
    ghost use Rattle.std.specs.Prelude.{[]};
    ghost use Rattle.place_words.specs.State.{no_lists};

    ghost lock = { 0 };

    ghost now = { no_lists };

    ghost hand = { [] };

    ghost hashes = { [] };

    ghost notes = { [] };

    ghost word = { 0 };

    ghost left = { 0 };
}

/// An element comes to a hand or leaves it.
pub struct Moving<N> {
    about: PhantomData<N>,
}

impl<N: Deed> Play<Behind, View> for Moving<N> {
    ghost use Rattle.place_table.specs.Plays.{Moves};

    ghost then = { λ st me n after. Moves N.lock N.now N.hand N.hashes N.notes N.word N.left me
        after };
}

/// The element whose home changes, and its home from then on.
pub trait Way {
    ghost use Rattle.std.specs.Prelude.{ℕ};
    ghost use Rattle.place_words.specs.declared.home.Home.{Home};

    ghost element: { ℕ };

    ghost to: { Home };
}

impl Way for Brand {
    ghost use Rattle.place_words.specs.declared.home.Home.TheVariants as homes;

    ghost element = { 0 };

    ghost to = { homes.Unlisted };
}

/// The home of an element changes.
pub struct Rehoming<N> {
    about: PhantomData<N>,
}

impl<N: Way> Play<Behind, View> for Rehoming<N> {
    ghost use Rattle.place_table.specs.Plays.{Rehomes};

    ghost then = { λ st me n after. Rehomes N.element N.to me after };
}

/// The element that a step is about.
pub trait About {
    ghost use Rattle.std.specs.Prelude.{ℕ};

    ghost element: { ℕ };
}

impl About for Brand {
    ghost element = { 0 };
}

/// The ticket word is read, before a ticket is drawn.
pub struct ReadingTicket;

impl Play<Behind, View> for ReadingTicket {
    ghost use Rattle.place_table.specs.Plays.{ReadsTicket};

    ghost then = { λ st me n after. ReadsTicket me n after };
}

/// The ticket word is read, and no ticket is drawn.
pub struct SeeingTicket;

impl Play<Behind, View> for SeeingTicket {
    ghost use Rattle.place_table.specs.Plays.{SeesTicket};

    ghost then = { λ st me n after. SeesTicket me n after };
}

/// A ticket is drawn.
pub struct DrawingTicket;

impl Play<Behind, View> for DrawingTicket {
    ghost use Rattle.place_table.specs.Plays.{DrawsTicket};

    ghost then = { λ st me n after. DrawsTicket me n after };
}

/// A bit is set.
pub struct Marking<N> {
    about: PhantomData<N>,
}

impl<N: About> Play<Behind, View> for Marking<N> {
    ghost use Rattle.place_table.specs.Plays.{Marks};

    ghost then = { λ st me n after. Marks N.element me after };
}

/// A bit is cleared.
pub struct Clearing<N> {
    about: PhantomData<N>,
}

impl<N: About> Play<Behind, View> for Clearing<N> {
    ghost use Rattle.place_table.specs.Plays.{Clears};

    ghost then = { λ st me n after. Clears N.element me n after };
}

/// A bit is read.
pub struct ReadingBit<N> {
    about: PhantomData<N>,
}

impl<N: About> Play<Behind, View> for ReadingBit<N> {
    ghost use Rattle.place_table.specs.Plays.{SeesBit};

    ghost then = { λ st me n after. SeesBit N.element me n after };
}

/// An owner is read.
pub struct ReadingOwner<N> {
    about: PhantomData<N>,
}

impl<N: About> Play<Behind, View> for ReadingOwner<N> {
    ghost use Rattle.place_table.specs.Plays.{SeesOwner};

    ghost then = { λ st me n after. SeesOwner N.element me n after };
}

/// A home is read.
pub struct ReadingHome<N> {
    about: PhantomData<N>,
}

impl<N: About> Play<Behind, View> for ReadingHome<N> {
    ghost use Rattle.place_table.specs.Plays.{SeesHome};

    ghost then = { λ st me n after. SeesHome N.element me n after };
}

/// The CPU that is split off.
pub trait Cut {
    ghost use Rattle.std.specs.Prelude.{ℕ};

    ghost cpu: { ℕ };
}

impl Cut for Brand {
    ghost cpu = { 0 };
}

/// A CPU is split off to a new pass.
pub struct Cutting<N> {
    about: PhantomData<N>,
}

impl<N: Cut> Split<View> for Cutting<N> {
    ghost use Rattle.place_table.specs.Views.{split_from, split_off};

    ghost left = { λ v. split_from N.cpu v };

    ghost right = { λ v. split_off N.cpu v };
}

/// The shape of the table two of whose passes are joined, which what is left of the other has too.
pub trait Merge {
    ghost use Rattle.map_types.specs.declared.attr.Shape.{Shape};

    ghost shape: { Shape };
}

impl Merge for Brand {
    ghost use Rattle.std.specs.Prelude.{false};
    ghost use Rattle.map_types.specs.declared.kind.MapKind.TheVariants.{Hash};

    ghost shape = { record {
      kind = Hash;
      cpus = 0;
      capacity = 0;
      elements = 0;
      buckets = 0;
      key_size = 0;
      value_size = 0;
      seed = 0;
      common = false;
    } };
}

/// A pass takes in another.
pub struct Merging<N> {
    about: PhantomData<N>,
}

impl<N: Merge> Join<View> for Merging<N> {
    ghost use Rattle.place_table.specs.Views.{joined, spent};

    ghost both = { λ v other. joined v other };

    ghost spent = { spent N.shape };
}
