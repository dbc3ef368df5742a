//! Which turns of a strand are a call's, and its reply.
#![tactic(auto)]

mod batch_reads;
mod batch_writes;
mod call_reader;
mod element_walks;
mod found;
mod group;
mod key_bucket;
mod key_calls;
mod laws;
mod looks;
mod next_key;
mod pair_tests;
mod parts;
mod replies;
mod strand;

pub use batch_reads::{BatchAsk, BatchReply, ends_at, room_left, stopped_behind};
pub use batch_writes::is_count;
pub use call_reader::read_call;
pub use element_walks::handed_over;
pub use found::FoundAt;
pub use key_bucket::bucket_number;
pub use laws::read_laws;
pub use pair_tests::place_behind;
pub use parts::{first_in, found_in, gone_in, got_in, same_bool, same_side, taken_in, walked_in};
pub use replies::{is_done, is_got, is_refused, is_same_error, is_value};
pub use strand::{Turn, Turns};
