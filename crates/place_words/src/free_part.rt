//! What one turn of a freelist's lock did.

/// What one turn of a freelist's lock did.
#[derive(Clone, Copy, Debug, PartialEq, Eq)]
pub enum FreePart {
    /// An element was put on top.
    Pushed(u32),
    /// The element on top was taken.
    Popped(u32),
    /// The stack was empty.
    FoundEmpty,
}
