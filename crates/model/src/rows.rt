// A row: what one participant holds of one cell.
ghost use Rattle.std.specs.Prelude.{◌≡◌, replicate};
ghost use Rattle.model.specs.Entries.{none};

use crate::entries::Entry;

// The most participants that a register can have.
pub const MOST: usize = 7;

// One entry for each participant, the holder's own at its own number and the others as it has seen them. Those at and above the register's n stand idle. (Slots of a fixed number and no ArrayVec: a row is Copy, and lies in the caller's table.)
#[derive(Clone, Copy, Debug)]
pub struct Row {
    pub entries: [Entry; MOST],
}

impl Row {
    // A row of somebody who knows of no promise and no vote.
    pub fn empty() -> Row
        ensures { result ≡ record { entries = replicate 7 none } }
    {
        Row {
            entries: [Entry::none(); MOST],
        }
    }
}
