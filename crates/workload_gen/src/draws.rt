//! Numbers that are drawn.

ghost use Rattle.std.specs.Prelude.{◌≡◌, ◌<◌};
ghost use Rattle.workload_gen.specs.Draws.{next_state, answer_of};

/// Draws numbers one after the other, by a linear congruence modulo 2^32.
#[derive(Drop)]
pub(crate) struct Draws {
    state: u32,
}

impl Draws {
    /// The draws of a seed.
    pub(crate) fn of(seed: u32) -> Draws
        ensures { result.state ≡ seed }
    {
        Draws { state: seed }
    }

    /// The next number: the upper 16 bits of the next state.
    pub(crate) fn draw(&mut self) -> u32
        ensures state { self.new.state ≡ next_state self.old.state }
        ensures answer { result ≡ answer_of self.new.state }
        ensures small { result < 65536 }
    {
        self.state = self
            .state
            .wrapping_mul(1_664_525)
            .wrapping_add(1_013_904_223);
        self.state / 65_536
    }
}
