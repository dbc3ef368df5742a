//! The lists that rows are on.

/// A list that rows are on.
#[derive(Clone, Copy, Debug, PartialEq, Eq)]
pub enum ListName {
    Active,
    Inactive,
}
