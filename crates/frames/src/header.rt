// A frame's header.
ghost use Rattle.std.specs.Prelude.{◌≡◌, ◌<◌, ◌≤◌, true};
ghost use Rattle.frames.specs.Sorts.{well_addressed};

use crate::sort::Sort;

// Who sends what, of which cell, to whom, in a register of n participants and one kind of value. (The kind is a number and no enum: any below 16 is well formed, and a register knows one.)
#[derive(Clone, Copy, Debug)]
pub struct Header {
    pub sort: Sort,
    pub n: usize,
    pub sender: usize,
    pub kind: u8,
    pub to: u8,
    pub cell: usize,
    ghost some: { 2 ≤ n },
    ghost few: { n ≤ 7 },
    ghost sent: { sender < n },
    ghost known: { kind < 16 },
    ghost named: { cell < 256 },
    ghost addressed: { well_addressed sort n sender to ≡ true },
}
