//! A round over the CPUs.

ghost use Rattle.std.specs.Prelude.{◌≡◌, ◌<◌, ℕ, List};
ghost use Rattle.std.specs.Iterator.{YieldsFirst, item_count};
ghost use Rattle.place_words.specs.Turns.{ring};
ghost use Rattle.place_words.specs.Takings.{ring_next};
ghost use Rattle.steal_ring.specs.Rounds.{IsRound};

use std::marker::Model;
use std::ops::Range;

/// The CPUs of one round that are still to come: each CPU once, from the one where the round starts upwards, and after the
/// last CPU from CPU 0 on, as in the kernel's `bpf_common_lru_pop_free`. Contracts see the list of them.
#[derive(Drop)]
#[must_use = "iterators are lazy and do nothing unless consumed"]
pub struct Ring {
    upwards: Range<u32>,
    wrapped: Range<u32>,
}

impl Model for Ring {
    ghost use Rattle.std.specs.Prelude.{ℕ, List, ◌++◌};
    ghost use Rattle.steal_ring.specs.Rounds.{cpus_in};

    ghost Value = { List ℕ };

    ghost view = { λ r. cpus_in r.upwards ++ cpus_in r.wrapped };
}

impl Ring {
    /// A round over so many CPUs, which starts at one of them.
    pub fn of(start: u32, cpus: u32) -> Ring
        requires { start < cpus }
        ensures exact { result ≡ ring start cpus }
        ensures round { IsRound start cpus result }
    {
        Ring {
            upwards: start..cpus,
            wrapped: 0..start,
        }
    }
}

impl Iterator for Ring {
    type Item = u32;

    ghost next_gives = { YieldsFirst (λ (cpus : List ℕ). cpus) };

    ghost remaining = { item_count (λ (cpus : List ℕ). cpus) };

    /// The next CPU of the round: None exactly after the last.
    fn next(&mut self) -> Option<u32> {
        match self.upwards.next() {
            Some(cpu) => Some(cpu),
            None => self.wrapped.next(),
        }
    }
}

/// The CPU after one of so many, as the kernel's `get_next_cpu`: CPU 0 after the last.
pub fn ring_next(cpu: u32, cpus: u32) -> u32
    requires { cpu < cpus }
    ensures exact { result ≡ ring_next cpu cpus }
    ensures below { result < cpus }
{
    if cpu + 1 == cpus { 0 } else { cpu + 1 }
}
