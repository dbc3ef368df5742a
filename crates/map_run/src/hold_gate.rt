//! A gate that holds workers, for tests of races.

use map_types::{Gate, List, NoMemory, Point};
use std::alloc::Global;
use std::sync::atomic::{AtomicBool, Ordering};
use std::thread;

/// One hold: a CPU that arrives at a point is kept there until another CPU has arrived at another point.
#[derive(Clone, Copy, Debug, PartialEq, Eq)]
pub struct Hold {
    pub cpu: u32,
    pub at: Point,
    pub until_cpu: u32,
    pub until: Point,
}

/// A gate that keeps CPUs as some holds say, each for at most so many yields.
#[derive(Drop)]
pub struct HoldGate<R> {
    _rt: R,
    holds: List<Hold>,
    turns: u32,
    /// Of each hold, whether the CPU that is waited for has arrived.
    arrived: Vec<AtomicBool>,
    missed: AtomicBool,
}

impl<R: Drop> HoldGate<R> {
    /// A gate where no CPU has arrived anywhere.
    pub fn of(
        rt: R,
        alloc: Global,
        holds: List<Hold>,
        turns: u32,
    ) -> Result<HoldGate<R>, NoMemory> {
        let mut arrived = Vec::with_capacity(alloc, holds.len())?;
        for _ in holds.as_slice() {
            arrived.push(AtomicBool::new(false))?;
        }
        Ok(HoldGate {
            _rt: rt,
            holds,
            turns,
            arrived,
            missed: AtomicBool::new(false),
        })
    }

    /// Whether a hold ran out of turns.
    pub fn missed(&self) -> bool {
        self.missed.load(Ordering::SeqCst)
    }

    /// Yields until the CPU that is waited for has arrived.
    fn wait(&self, arrived: &AtomicBool) {
        for _ in 0..self.turns {
            if arrived.load(Ordering::SeqCst) {
                return;
            }
            thread::yield_now();
        }
        if !arrived.load(Ordering::SeqCst) {
            self.missed.store(true, Ordering::SeqCst);
        }
    }
}

impl<R: Drop + Sync> Gate for HoldGate<R> {
    fn at(&self, cpu: u32, point: Point) {
        for (hold, arrived) in self.holds.as_slice().iter().zip(self.arrived.iter()) {
            if hold.until_cpu == cpu && hold.until == point {
                arrived.store(true, Ordering::SeqCst);
            }
        }
        for (hold, arrived) in self.holds.as_slice().iter().zip(self.arrived.iter()) {
            if hold.cpu == cpu && hold.at == point {
                self.wait(arrived);
            }
        }
    }
}
