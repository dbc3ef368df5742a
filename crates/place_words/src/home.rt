//! On whose lists an element is.

ghost use Rattle.std.specs.Prelude.{◌≡◌, ◌≢◌, MatchOption};
ghost use Rattle.place_words.specs.Codes.{HasHomeCode, home_code};
ghost use Rattle.place_words.specs.declared.home.Home as homes;

use map_types::DomainId;

/// On whose lists an element is.
#[derive(Clone, Copy, Debug, PartialEq, Eq)]
pub enum Home {
    /// The map doesn't evict: this is the home of each of its elements.
    Unlisted,
    /// It is on the lists under this lock, which are those of a CPU or the global ones: no bucket and no freelist.
    In(DomainId),
    /// It is on no list, and a CPU carries it to its own lists. CPUs are numbered below 16.
    Hand(u32),
}

/// The number by which a home is kept: 0 for unlisted, 1 and the CPU for a hand, 32 and the CPU for its local lists, 64
/// for the global lists, and 96 and the CPU for its own list set.
pub fn home_code(home: Home) -> u64
    requires { HasHomeCode home }
    ensures exact { result ≡ home_code home }
    ensures one_to_one { (other : homes.Home) → HasHomeCode other → home_code other ≡ result
        → other ≡ home }
{
    match home {
        Home::Unlisted => 0,
        Home::Hand(cpu) => 1 + u64::from(cpu),
        Home::In(DomainId::Local(cpu)) => 32 + u64::from(cpu),
        Home::In(DomainId::Global) => 64,
        Home::In(DomainId::CpuLru(cpu)) => 96 + u64::from(cpu),
        Home::In(DomainId::Bucket(_) | DomainId::Freelist(_)) => unreachable!(),
    }
}

/// The home that a number stands for, or None where it stands for none.
pub fn home_of_code(code: u64) -> Option<Home>
    ensures { MatchOption result
        ((home : homes.Home) → HasHomeCode home → home_code home ≢ code)
        (λ home. HasHomeCode home × (home_code home ≡ code)) }
{
    match code {
        0 => Some(Home::Unlisted),
        1..=16 => Some(Home::Hand((code - 1) as u32)),
        32..=47 => Some(Home::In(DomainId::Local((code - 32) as u32))),
        64 => Some(Home::In(DomainId::Global)),
        96..=111 => Some(Home::In(DomainId::CpuLru((code - 96) as u32))),
        _ => None,
    }
}
