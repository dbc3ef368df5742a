//! The shrink of a list set, as the kernel's `__bpf_lru_list_shrink`: it evicts elements that were not used lately. And the
//! searches of a list for one element to take, as those of `__local_list_pop_pending`.
#![tactic(auto)]

mod forced;
mod looks;
mod search;
mod shrinking;

pub use search::{search_all, search_sparing};
pub use shrinking::shrink;
