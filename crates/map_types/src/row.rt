//! A row of an LRU list.

/// A row of an LRU list: an element, and the stored hash of its key.
#[derive(Clone, Copy, Debug, PartialEq, Eq)]
pub struct Row {
    pub element: u32,
    pub hash: u32,
}
