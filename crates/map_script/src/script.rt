//! A script.

ghost use Rattle.std.specs.Prelude.{◌≡◌, IfOk};
ghost use Rattle.map_script.specs.Canonical.{canonical};
ghost use Rattle.map_script.specs.Reading.{IsReadAs, read_as};

use crate::text::text_of;
use map_types::{Call, CreateAttr, List, NoMemory, Numbers, Shape};
use std::alloc::Global;

/// What a script's lines behind its map are.
#[derive(Clone, Copy, Debug, PartialEq, Eq)]
pub enum Form {
    /// A line for each call, and in version 2 one where each further phase starts.
    Calls,
    /// One line, from which the calls are generated.
    Generator,
    /// In version 2 alone: the line of a target, into which the map is copied, and behind it the lines of form `Calls`.
    Copy,
}

/// A map, and calls on it in order.
#[derive(Drop)]
pub struct Script {
    /// 1, or 2 for a script that may have several phases.
    pub version: u32,
    pub attr: CreateAttr,
    /// What `check_attr` makes of the attributes.
    pub shape: Shape,
    /// None, where the script was read in form Generator.
    pub calls: List<Call>,
    /// How many calls stand before each `phase` line, in order.
    pub cuts: Numbers,
    /// What its calls are generated from, in a script of form Generator.
    pub spec: Option<GenSpec>,
    /// Into what the map is copied, in a script of form Copy.
    pub target: Option<Target>,
}

/// A map into which the script's map, the source, is copied beside the calls of the script's last phase.
#[derive(Clone, Copy, Debug, PartialEq, Eq)]
pub struct Target {
    /// Its keys, its values and its CPUs are the source's.
    pub attr: CreateAttr,
    /// What `check_attr` makes of the attributes.
    pub shape: Shape,
    /// How many pairs the first read asks for, 1 to 65,536.
    pub count: u32,
}

impl Script {
    /// The script's canonical text: one space between tokens, no comments, numbers without leading zeros, lower case
    /// digits, the flags 0, 1 and 2 of an update by name, and only where they aren't 0 the flags and the seed of a map and
    /// the flags of a batch read. A script that has a target has its line behind the map line. A script without a spec has a
    /// line for each call, and a line `phase` where each cut is. It fails only where memory does.
    pub fn text(&self, alloc: Global) -> Result<Vec<u8>, NoMemory>
        ensures canonical { IfOk result (λ text. text.items ≡ canonical self.now) }
        // A script that form Calls gives is what form Calls reads from its canonical text.
        ensures round_trip { IfOk result (λ text. IsReadAs Form.Calls self.now
            → read_as Form.Calls text.items ≡ Ok self.now) }
        // A script that form Copy gives is what form Copy reads from its canonical text.
        ensures copy_round_trip { IfOk result (λ text. IsReadAs Form.Copy self.now
            → read_as Form.Copy text.items ≡ Ok self.now) }
    {
        text_of(alloc, self)
    }
}

/// What the calls of a script are generated from.
#[derive(Clone, Copy, Debug, PartialEq, Eq)]
pub struct GenSpec {
    /// What the draws start from.
    pub seed: u32,
    /// How many calls, 1 to 200,000.
    pub calls: u32,
    /// How many keys, 1 to 1,000,000 and fewer than there are keys of the map's size.
    pub keys: u32,
    /// 0 for rounds of updates and of lookups over all keys, 1 for a mix that is drawn.
    pub mix: u32,
}
