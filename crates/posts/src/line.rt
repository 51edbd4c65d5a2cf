// The line: a post with room for 64 items.
ghost use Rattle.std.specs.Prelude.{◌≡◌, [], IfOk};
ghost use Rattle.model.specs.Sets.{member};
ghost use Rattle.posts.specs.Meaning.{Puts, Takes};
ghost use Rattle.posts.specs.Lines.{line_items, line_means, Queues, Lets};
ghost use Rattle.posts.specs.Midway.{offered};
ghost use Rattle.posts.specs.LinesLemmas.{line_lawful};

use crate::post::{LONGEST, Post};
use crate::sendable::Sendable;
use crate::tray::Tray;
use model::sets::has;
use std::alloc::{AllocError, Global};

// Has 64 places. Where they are full a new item is turned away, and an item leaves its place when it is taken.
#[derive(Drop)]
pub struct Line {
    tray: Tray,
}

impl Line {
    // An empty line, or an error for want of memory.
    pub fn new(heap: Global) -> Result<Line, AllocError>
        ensures { IfOk result (λ line. line_items line ≡ []) }
    {
        let tray = Tray::new(heap)?;
        Ok(Line { tray })
    }

    // Adds an item for q, if q is addressed and there is room.
    fn offer(&mut self, frame: Sendable, to: u8, q: usize)
        ensures { line_items self.new ≡ offered frame.entry.bytes.now (member to) q (line_items self.old) }
    {
        if has(to, q) && self.tray.has_room() {
            self.tray.push(frame, q);
        }
    }

    // Goes through the addressees, ascending, and says how many items were added.
    fn fill(&mut self, frame: Sendable, to: u8) -> usize
        ensures puts { Puts line_means self.old frame.entry.bytes.now (member to) result self.new }
        ensures queues { Queues self.old frame.entry.bytes.now (member to) self.new }
    {
        let before = self.tray.len();
        for q in 0..8 {
            self.offer(frame, to, q);
        }
        self.tray.len() - before
    }
}

impl Post for Line {
    ghost means = { line_means };

    ghost lawful = { line_lawful };

    #[tactic(auto, using(crate::specs::Putting::puts_refused, crate::specs::LinesLemmas::line_lawful))]
    fn put(&mut self, frame: &[u8], to: u8) -> usize
        ensures puts { Puts line_means self.old frame.now (member to) result self.new }
        ensures queues { Queues self.old frame.now (member to) self.new }
    {
        // No map_or: what its closure writes to the line is not known behind it.
        match Sendable::of(frame) {
            Some(frame) => self.fill(frame, to),
            None => 0,
        }
    }

    fn take(&mut self, q: usize, k: usize, out: &mut [u8; LONGEST]) -> Option<usize>
        ensures takes { Takes line_means self.old q k out.old result self.new out.new }
        ensures lets { Lets q k (line_items self.old) result (line_items self.new) }
    {
        let i = self.tray.find(q, k)?;
        let len = self.tray.open(i, out);
        self.tray.remove(i);
        Some(len)
    }

    fn waiting(&self, q: usize) -> usize {
        self.tray.waiting(q)
    }
}
