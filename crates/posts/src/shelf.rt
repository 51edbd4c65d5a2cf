// The shelf: a post that remembers the latest 64 items.
ghost use Rattle.std.specs.Prelude.{◌≡◌, ◌<◌, [], length, IfOk};
ghost use Rattle.model.specs.Sets.{member};
ghost use Rattle.posts.specs.Meaning.{Puts, Takes};
ghost use Rattle.posts.specs.Shelves.{shelf_items, shelf_means, Replaces};
ghost use Rattle.posts.specs.Midway.{with_room, stocked};
ghost use Rattle.posts.specs.Stocking.{shelf_lawful};

use crate::post::{LONGEST, Post};
use crate::sendable::Sendable;
use crate::tray::Tray;
use model::sets::{count, has};
use std::alloc::{AllocError, Global};

// Has 64 places. Where they are full the oldest item is given up for a new one. Taking an item leaves it in its place.
// (A type beside the line: one generic over both, with its `new`, `fill` and `put`, needs a trait with two relations of a put midway and their laws, for a loop of three lines.)
#[derive(Drop)]
pub struct Shelf {
    tray: Tray,
}

impl Shelf {
    // An empty shelf, or an error for want of memory.
    pub fn new(heap: Global) -> Result<Shelf, AllocError>
        ensures { IfOk result (λ shelf. shelf_items shelf ≡ []) }
    {
        let tray = Tray::new(heap)?;
        Ok(Shelf { tray })
    }

    // Lets the oldest item go, if there is no room for one more.
    fn make_way(&mut self)
        ensures items { shelf_items self.new ≡ with_room (shelf_items self.old) }
        ensures room { length (shelf_items self.new) < 64 }
    {
        if !self.tray.has_room() {
            self.tray.remove(0);
        }
    }

    // Adds an item for q, if q is addressed.
    fn offer(&mut self, frame: Sendable, to: u8, q: usize)
        ensures { shelf_items self.new ≡ stocked frame.entry.bytes.now (member to) q (shelf_items self.old) }
    {
        if has(to, q) {
            self.make_way();
            self.tray.push(frame, q);
        }
    }

    // Goes through the addressees, ascending, and says how many there are.
    fn fill(&mut self, frame: Sendable, to: u8) -> usize
        ensures puts { Puts shelf_means self.old frame.entry.bytes.now (member to) result self.new }
        ensures replaces { Replaces self.old frame.entry.bytes.now (member to) self.new }
    {
        for q in 0..8 {
            self.offer(frame, to, q);
        }
        count(to)
    }
}

impl Post for Shelf {
    ghost means = { shelf_means };

    ghost lawful = { shelf_lawful };

    #[tactic(auto, using(crate::specs::Putting::puts_refused, crate::specs::Stocking::shelf_lawful))]
    fn put(&mut self, frame: &[u8], to: u8) -> usize
        ensures puts { Puts shelf_means self.old frame.now (member to) result self.new }
        ensures replaces { Replaces self.old frame.now (member to) self.new }
    {
        // No map_or: what its closure writes to the shelf is not known behind it.
        match Sendable::of(frame) {
            Some(frame) => self.fill(frame, to),
            None => 0,
        }
    }

    fn take(&mut self, q: usize, k: usize, out: &mut [u8; LONGEST]) -> Option<usize>
        ensures takes { Takes shelf_means self.old q k out.old result self.new out.new }
        ensures stays { self.new ≡ self.old }
    {
        let i = self.tray.find(q, k)?;
        Some(self.tray.open(i, out))
    }

    fn waiting(&self, q: usize) -> usize {
        self.tray.waiting(q)
    }
}
