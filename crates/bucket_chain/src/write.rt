//! A bucket that is held, and what an update asks for in it.

use crate::chain::Chain;
use map_types::Side;

/// What an update asks for: the side that makes it, its flags, and the key with the value. `flags`: BPF_ANY is 0,
/// BPF_NOEXIST is 1, BPF_EXIST is 2.
#[derive(Clone, Copy)]
pub struct Write<'a> {
    pub side: Side,
    pub flags: u32,
    pub key: &'a [u8],
    pub value: &'a [u8],
}

/// A bucket whose lock is held: its number, and what lies there now.
#[derive(Drop)]
pub struct TakenBucket {
    pub number: u32,
    pub chain: Chain,
}
