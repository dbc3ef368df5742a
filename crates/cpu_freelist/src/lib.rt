//! The free elements of a map that doesn't evict: the stack that each CPU has.
#![tactic(auto)]

mod freelist;

pub use freelist::Freelist;
pub use place_words::share;
