//! Where an element is, in words: who owns it, where its home is, the numbers by which a shared table keeps both, and
//! the order in which locks are taken. Where all elements of a map are at first, and by which steps of its CPUs they
//! move. And what is recorded of the turns of each lock, with the rules by which each changes what lies under it.
#![tactic(auto)]

mod bucket_part;
mod copying;
mod entries;
mod finals;
mod free_part;
mod history;
mod home;
mod kept_values;
mod laws;
mod list_part;
mod lock;
mod opening;
mod owner;
mod packed;
mod packed_bucket;
mod pair;
mod shares;
mod step;
mod strand_steps;
mod turn_logs;
mod visits;

pub use bucket_part::{BucketPart, NextFound, Put, Seen, Walked};
pub use entries::{Entries, EntryAt, PartAt};
pub use finals::{Finals, Kept, LocalFinal, SetFinal};
pub use free_part::FreePart;
pub use history::{Entry, LockHistory, Part, Strand, StrandStep};
pub use home::{Home, home_code, home_of_code};
pub use kept_values::KeptValues;
pub use laws::{bound_laws, keep_laws, serial_laws};
pub use list_part::{GlobalPart, LocalPart, OwnPart, Stolen};
pub use lock::{is_lock, lock_named, lock_number, rank};
pub use opening::{free_at_first, home_at_first, owners_at_first, spares_at_first};
pub use owner::{Owner, is_free, owner_code, owner_of_code};
pub use packed::{OwnAt, PackedGlobal, PackedLocal, PackedOwn};
pub use packed_bucket::PackedBucket;
pub use shares::share;
pub use step::{Lists, Step};
pub use strand_steps::{StepBuffer, StepRow, StrandSteps};
pub use turn_logs::{LoggedTurn, TurnLogs, TurnPlace};
pub use visits::{Flush, Look, ShrinkNote, Try, Visit};
