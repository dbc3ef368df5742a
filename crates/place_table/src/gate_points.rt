//! What is told where a worker takes a lock and gives it back, by one thread.

use map_types::{Gate, Point};

/// What a worker tells at each point. Unlike a gate it needn't be shared by threads, so a trait's method may take it.
pub trait Points {
    /// The worker of this CPU is at this point.
    fn point(&self, cpu: u32, point: Point);
}

/// Tells a gate.
#[derive(Drop)]
pub struct At<'a, G> {
    pub gate: &'a G,
}

impl<'a, G: Gate> Points for At<'a, G> {
    fn point(&self, cpu: u32, point: Point) {
        self.gate.at(cpu, point)
    }
}
