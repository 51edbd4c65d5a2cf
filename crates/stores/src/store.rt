// What a store is.
ghost use Rattle.std.specs.Prelude.{◌≡◌};
ghost use Rattle.model.specs.Entries.{clean};
ghost use Rattle.model.specs.declared.faults.Fault.TheVariants as refusal;
ghost use Rattle.stores.specs.Meaning.{StoreMeaning, StoreLaws, Saves};

use model::entries::Entry;
use model::faults::Fault;

// A save that failed, at this place.
#[derive(Clone, Copy, Debug, PartialEq, Eq)]
pub struct SaveFailed {
    pub place: usize,
}

impl From<SaveFailed> for Fault {
    ghost from_gives = { λ failed fault. fault ≡ refusal.SaveFailed failed.place };

    fn from(failed: SaveFailed) -> Fault {
        Fault::SaveFailed(failed.place)
    }
}

// A store keeps one entry at each of its places.
pub trait Store {
    ghost means: { StoreMeaning Self };

    // The number of places, which never changes.
    fn places(&self) -> usize
        ensures { result ≡ means.places self.now };

    // The entry at the place; none where there is no such place.
    fn load(&self, place: usize) -> Entry
        ensures { result ≡ means.at self.now place };

    // Puts the entry at the place. Numbers that are no entry are saved as none.
    fn save(&mut self, place: usize, e: Entry) -> Result<(), SaveFailed>
        ensures { Saves means self.old place (clean e) result self.new };

    ghost lawful: { StoreLaws means };
}
