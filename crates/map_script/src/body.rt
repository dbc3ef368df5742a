//! What stands behind the map line of a script of form Calls.

use map_types::{Call, List, Numbers};

/// What a line behind the map line says.
#[derive(Drop)]
pub(crate) enum BodyLine {
    Call(Call),
    /// The next phase starts.
    Phase,
}

/// What the lines behind the map line say.
#[derive(Drop)]
pub(crate) struct Body {
    pub(crate) calls: List<Call>,
    /// How many calls stand before each line that starts a phase.
    pub(crate) cuts: Numbers,
}
