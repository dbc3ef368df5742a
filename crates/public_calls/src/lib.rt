//! Values that come from outside, in tables over the public calls of the crates below.
#![tactic(auto)]

#[cfg(test)]
mod codes;
#[cfg(test)]
mod creations;
#[cfg(test)]
mod hashes;
#[cfg(test)]
mod list_sets;
#[cfg(test)]
mod local_sets;
#[cfg(test)]
mod memory_bits;
#[cfg(test)]
mod pieces;
#[cfg(test)]
mod replays;
#[cfg(test)]
mod rotations;
#[cfg(test)]
mod rounds;
#[cfg(test)]
mod scripts;
#[cfg(test)]
mod searches;
#[cfg(test)]
mod shrinks;
#[cfg(test)]
mod steps;
#[cfg(test)]
mod tables;
