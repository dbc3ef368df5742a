//! The small types that the crates of `bpfmap` share: kinds and shapes of maps, calls and replies, lists, and the
//! rules by which a map is created.
#![tactic(auto)]

mod attr;
mod bytes;
mod call;
mod check;
mod gate;
mod kind;
mod list;
mod pairs;
mod refusal;
mod reply;
mod row;
mod values;

pub use attr::{CreateAttr, Shape};
pub use bytes::Bytes;
pub use call::{Call, Verb};
pub use check::{BPF_F_NO_COMMON_LRU, BPF_F_NO_PREALLOC, BPF_F_ZERO_SEED, check_attr};
pub use gate::{Gate, NoGate, Point};
pub use kind::{DomainId, MapKind, Side};
pub use list::{List, Numbers};
pub use pairs::{PairBlock, Pairs, piece};
pub use refusal::{Absent, CreateRefusal, Errno, Failed, Limit, NoMemory};
pub use reply::Reply;
pub use row::Row;
pub use values::value_len;
