// Lines, collected from the blocks of an input as they come.
ghost use Rattle.std.specs.Option.{option_map, unwrap_or};
ghost use Rattle.std.specs.Prelude.{◌≡◌, ℕ, ◌≤◌, List, [], ◌++◌, length, IfSome, Some};

use crate::marks::split_first;
use arrayvec::ArrayVec;

// The longest line that can be read.
pub const LONGEST: usize = 80;

// The line that is being collected, or nothing where it is too long.
#[derive(Drop)]
pub struct Lines {
    line: Option<ArrayVec<u8, LONGEST>>,
    ghost few: { length (unwrap_or (option_map (λ l. l.items) line) []) ≤ 80 },
}

impl Lines {
    ghost use Rattle.script.specs.Collected.{kept, added, collected, begun, part, GoesOn};
    ghost use Rattle.script.specs.Pieces.{front, newline, Splits};

    // Nothing collected yet.
    pub fn new() -> Lines
        ensures { collected result ≡ Some [] }
    {
        Lines {
            line: Some(ArrayVec::new()),
        }
    }

    // Collects a block up to the end of the line, and gives the rest of it behind that; nothing where
    // the block ends before the line does.
    pub fn take<'a>(&mut self, block: &'a [u8]) -> Option<&'a [u8]>
        ensures collects { collected self.new ≡ added (collected self.old) (front newline block.now) }
        ensures rest { Splits newline block.now (front newline block.now) result }
        ensures law { (line : List ℕ) → collected self.old ≡ kept line → collected self.new ≡ kept (line ++ front newline block.now) }
    {
        let (piece, rest) = split_first(b'\n', block);
        self.add(piece);
        rest
    }

    // Collects a block from a position on, up to the end of the line, and says where the block goes
    // on behind that; nothing where the block ends before the line does.
    pub fn take_from(&mut self, block: &[u8], from: usize) -> Option<usize>
        ensures collects { collected self.new ≡ added (collected self.old) (part block.now from) }
        ensures goes_on { GoesOn block.now from result }
        ensures law { (line : List ℕ) → collected self.old ≡ kept line → collected self.new ≡ kept (line ++ part block.now from) }
    {
        self.take(block.get(from..).unwrap_or_default())
            .map(|rest| block.len() - rest.len())
    }

    // Adds bytes to the line.
    fn add(&mut self, more: &[u8])
        ensures collects { collected self.new ≡ added (collected self.old) more.now }
        ensures law { (line : List ℕ) → collected self.old ≡ kept line → collected self.new ≡ kept (line ++ more.now) }
    {
        if let Some(line) = &mut self.line
            && line.try_extend_from_slice(more).is_err()
        {
            self.line = None;
        }
    }

    // The line collected, unless it is too long.
    pub fn line(&self) -> Option<&[u8]>
        ensures value { option_map (λ x. x.now) result ≡ collected self.now }
        ensures short { IfSome result (λ line. length line.now ≤ 80) }
    {
        self.line.as_ref().map(|line| line.as_slice())
    }

    // Whether any byte was collected since the last clear, so that a last line without an end is left.
    pub fn pending(&self) -> bool
        ensures value { result ≡ begun (collected self.now) }
        ensures short { IfSome (collected self.now) (λ line. length line ≤ 80) }
    {
        self.line.as_ref().is_none_or(|line| !line.is_empty())
    }

    // Makes room for the next line.
    pub fn clear(&mut self)
        ensures { collected self.new ≡ Some [] }
    {
        self.line = Some(ArrayVec::new());
    }
}
