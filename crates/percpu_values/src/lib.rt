//! What an element of a map holds: its number, its key and its values, one value for each CPU or one alone; bodies in
//! blocks of their own, stacks of them, and cells in which they are linked to lists.
#![tactic(auto)]

mod body;
mod boxed;
mod cell;
mod stack;
mod values;

pub use body::Body;
pub use boxed::BoxedBody;
pub use cell::Cell;
pub use stack::BodyStack;
pub use values::Values;
