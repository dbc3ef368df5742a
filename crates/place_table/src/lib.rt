//! The table that the CPUs of a map share: its locks with what lies under them, the owners, homes and bits of its
//! elements, and the history of each lock. Over it the turns of one bucket on a map of any kind: lookups, updates, deletes and
//! takes of a key, from where the bucket is taken to where it is given back.
#![tactic(auto)]

mod body_copies;
mod bucket_takes;
mod bucket_turns;
mod bucket_updates;
mod close;
mod closed;
mod content;
mod cpus;
mod create;
mod gate_points;
mod homes;
mod laws;
mod lists_left;
mod owners;
mod pass;
mod read_slots;
mod rule;
mod spares;
mod steps;
mod strands;
mod table;
mod turn_places;
mod view;

pub use bucket_takes::TakenOut;
pub use closed::Closed;
pub use content::{Behind, Content, Listing, SlotTurns};
pub use gate_points::{At, Points};
pub use laws::{told_laws, word_laws};
pub use pass::Pass;
pub use rule::{
    About, Caller, Clearing, Cut, Cutting, Deed, Giving, Law, Losing, Marking, Merge, Merging,
    Moving, ReadingBit, ReadingHome, ReadingOwner, Rehoming, SharedTable, TableSeat, Trying, Turn,
    Way,
};
pub use table::PlaceTable;
pub use view::{
    BitAsked, BitSeen, Ended, HashIn, Hold, HomeIn, HomeSeen, InHand, Known, Notes, OwnerSeen,
    Turned, View, WordStep,
};
