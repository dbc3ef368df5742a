//! How the elements of a map are spread over its CPUs.

ghost use Rattle.std.specs.Prelude.{◌≡◌, ◌+◌, ◌<◌, ◌≤◌};
ghost use Rattle.place_words.specs.Shares.{share_first, share_count};
ghost use Rattle.place_words.specs.Spread.{IsEvenShare};

/// The first element of a CPU's share, and how many it has. The elements are spread in order, and the first CPUs get one
/// more where they don't come out even, as in the kernel's `pcpu_freelist_populate`.
pub fn share(elements: u32, cpus: u32, cpu: u32) -> (u32, u32)
    requires { cpu < cpus }
    ensures first { result.0 ≡ share_first elements cpus cpu }
    ensures count { result.1 ≡ share_count elements cpus cpu }
    // The shares lie one after another from 0 on, and the last ends with the last element.
    ensures next { result.0 + result.1 ≡ share_first elements cpus (cpu + 1) }
    ensures start { share_first elements cpus 0 ≡ 0 }
    ensures end { share_first elements cpus cpus ≡ elements }
    ensures within { result.0 + result.1 ≤ elements }
    ensures even { IsEvenShare elements cpus result.1 }
{
    let each = elements / cpus;
    let more = elements % cpus;
    (cpu * each + cpu.min(more), each + u32::from(cpu < more))
}
