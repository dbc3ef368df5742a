//! The points of a race at which a row holds workers, read from its lines.

use map_run::Hold;
use map_types::{DomainId, Point};

/// A hold, as `0 took bucket 3 until 1 done 2`: a CPU and its point, and the CPU and the point that it waits for.
pub(crate) fn hold_of(text: &str) -> Option<Hold> {
    let (held, awaited) = text.split_once(" until ")?;
    let (cpu, at) = arrival_of(held)?;
    let (until_cpu, until) = arrival_of(awaited)?;
    Some(Hold {
        cpu,
        at,
        until_cpu,
        until,
    })
}

/// A CPU at a point, as `1 done 2`.
fn arrival_of(text: &str) -> Option<(u32, Point)> {
    let (cpu, point) = text.split_once(' ')?;
    let cpu = cpu.parse().ok()?;
    Some((cpu, point_of(point)?))
}

/// A point: `begin` or `done` with a call's number, `took` or `gave` with a lock.
fn point_of(text: &str) -> Option<Point> {
    let (verb, rest) = text.split_once(' ')?;
    match verb {
        "begin" => Some(Point::Begin(rest.parse().ok()?)),
        "took" => Some(Point::Took(lock_of(rest)?)),
        "gave" => Some(Point::Gave(lock_of(rest)?)),
        "done" => Some(Point::Done(rest.parse().ok()?)),
        _ => None,
    }
}

/// A lock by its name in reports.
fn lock_of(text: &str) -> Option<DomainId> {
    if text == "global" {
        return Some(DomainId::Global);
    }
    let (name, number) = text.split_once(' ')?;
    let number = number.parse().ok()?;
    match name {
        "local" => Some(DomainId::Local(number)),
        "lru" => Some(DomainId::CpuLru(number)),
        "bucket" => Some(DomainId::Bucket(number)),
        "freelist" => Some(DomainId::Freelist(number)),
        _ => None,
    }
}
