// A layer over any store, one of whose saves fails.
ghost use Rattle.std.specs.Prelude.{◌≡◌, ◌-◌};
ghost use Rattle.model.specs.Entries.{clean};
ghost use Rattle.stores.specs.Brittle.{due, brittle, SavesBelow, HoldsWhenDue};
ghost use Rattle.stores.specs.Meaning.{Saves, Fresh};
ghost use Rattle.std.proofs.Common.{rules};

use crate::store::{SaveFailed, Store};
use model::entries::Entry;

// Counts down to the save that fails, which is next at 1; at 0 none does any more.
// An Option would be no plainer: `new` is handed 0 for none, its promise names this count, and one subtraction that stops at 0 is the whole rule.
#[derive(Debug, Drop)]
pub struct Brittle<S> {
    below: S,
    until: u64,
    saves_first: bool,
}

impl<S: Store> Brittle<S> {
    // The k-th save from now on fails, having saved below first or not. At 0 none does.
    pub fn new(below: S, k: u64, saves_first: bool) -> Brittle<S>
        ensures below { result.below ≡ below }
        ensures until { result.until ≡ k }
        ensures first { result.saves_first ≡ saves_first }
        ensures fresh { Fresh S.Store.means below → Fresh (brittle S.Store.means) result }
    {
        Brittle {
            below,
            until: k,
            saves_first,
        }
    }
}

impl<S: Store> Store for Brittle<S> {
    ghost means = { brittle S.Store.means };

    ghost lawful = { Prim.search rules };

    fn places(&self) -> usize {
        self.below.places()
    }

    fn load(&self, place: usize) -> Entry {
        self.below.load(place)
    }

    fn save(&mut self, place: usize, e: Entry) -> Result<(), SaveFailed>
        ensures saves { Saves (brittle S.Store.means) self.old place (clean e) result self.new }
        ensures below { SavesBelow S.Store.means (due self.old) self.old.saves_first self.old.below place (clean e) result self.new.below }
        ensures holds { HoldsWhenDue S.Store.means self.old place (clean e) self.new }
        ensures until { self.new.until ≡ self.old.until - 1 }
        ensures first { self.new.saves_first ≡ self.old.saves_first }
    {
        let due = self.until == 1;
        self.until = self.until.saturating_sub(1);
        if due {
            if self.saves_first {
                let _ = self.below.save(place, e);
            }
            return Err(SaveFailed { place });
        }
        self.below.save(place, e)
    }
}
