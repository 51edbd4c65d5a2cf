// A store whose every save fails, for tests of a crash.
ghost use Rattle.register_tests.specs.Broken.{broken_means};
ghost use Rattle.std.proofs.Common.{rules};

use model::entries::Entry;
use stores::store::{SaveFailed, Store};

// Has so many places, holds nothing, and fails each save.
#[derive(Clone, Copy)]
pub struct Broken {
    pub places: usize,
}

impl Store for Broken {
    ghost means = { broken_means };

    ghost lawful = { Prim.search rules };

    fn places(&self) -> usize {
        self.places
    }

    fn load(&self, _place: usize) -> Entry {
        Entry::none()
    }

    fn save(&mut self, place: usize, _e: Entry) -> Result<(), SaveFailed> {
        Err(SaveFailed { place })
    }
}
