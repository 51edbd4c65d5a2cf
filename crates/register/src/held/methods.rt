// Holding rounds, and letting them go.
ghost use Rattle.std.specs.Prelude.{◌≡◌, ◌<◌, IfOk};
ghost use Rattle.register.specs.Holding.{ballot_for, HoldsNothing, Holds, Abandons};

use super::Held;
use crate::size::Size;
use std::alloc::{AllocError, Global};

impl Held {
    // No round at any place.
    pub(crate) fn nothing(heap: Global, size: Size) -> Result<Held, AllocError>
        ensures { IfOk result (HoldsNothing size) }
    {
        let ballots = vec![in heap; None; size.places()]?;
        Ok(Held { size, ballots })
    }

    // The ballot of the round held for participant p in cell c, if any.
    pub(crate) fn ballot(&self, p: usize, c: usize) -> Option<i32>
        ensures { result ≡ ballot_for self.now p c }
    {
        if p < self.size.n && c < self.size.cells {
            self.ballots[self.size.place(p, c)]
        } else {
            None
        }
    }

    // Holds a round of participant p in cell c by its ballot, or none.
    pub(crate) fn hold(&mut self, p: usize, c: usize, ballot: Option<i32>)
        requires { (p < self.old.size.n) × (c < self.old.size.cells) }
        ensures { Holds self.old p c ballot self.new }
    {
        let place = self.size.place(p, c);
        self.ballots[place] = ballot;
    }

    // Ends the round held for participant p in cell c. Says whether there was one.
    pub(crate) fn abandon(&mut self, p: usize, c: usize) -> bool
        ensures { Abandons self.old p c result self.new }
    {
        let held = self.ballot(p, c).is_some();
        if held {
            self.hold(p, c, None);
        }
        held
    }
}
