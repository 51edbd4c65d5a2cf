// The page store.
ghost use Rattle.std.specs.Prelude.{◌≡◌, replicate, vec_len};
ghost use Rattle.model.specs.Entries.{clean};
ghost use Rattle.stores.specs.Meaning.{Saves, Fresh};
ghost use Rattle.stores.specs.Page.{page_means, page_bytes, page_saved};
ghost use Rattle.std.proofs.Common.{rules};

use crate::raw::{ENTRY_BYTES, entry_at, overwrite, slots, zeroed};
use crate::store::{SaveFailed, Store};
use model::entries::Entry;

// Bytes of the caller's with a place for each whole twelve of them. What is left over at the end is no place.
#[derive(Debug, Drop)]
pub struct PageStore {
    bytes: Vec<u8>,
}

impl PageStore {
    // An empty page of these bytes.
    #[tactic(auto, using(crate::proofs::PageBytes::empty_page))]
    pub fn new(bytes: Vec<u8>) -> PageStore
        ensures bytes { page_bytes result ≡ replicate (vec_len bytes) 0 }
        ensures fresh { Fresh page_means result }
    {
        PageStore {
            bytes: zeroed(bytes),
        }
    }

    // The page as it stands.
    pub fn bytes(&self) -> &[u8]
        ensures { result.now ≡ page_bytes self.now }
    {
        self.bytes.as_slice()
    }
}

impl Store for PageStore {
    ghost means = { page_means };

    ghost lawful = { Prim.search rules };

    fn places(&self) -> usize {
        slots::<ENTRY_BYTES>(&self.bytes).len()
    }

    fn load(&self, place: usize) -> Entry {
        slots::<ENTRY_BYTES>(&self.bytes)
            .get(place)
            .map_or(Entry::none(), |slot| entry_at(slot, 0))
    }

    fn save(&mut self, place: usize, e: Entry) -> Result<(), SaveFailed>
        ensures saves { Saves page_means self.old place (clean e) result self.new }
        ensures bytes { page_bytes self.new ≡ page_saved (page_bytes self.old) place (clean e) }
    {
        if place < self.places() {
            overwrite(&mut self.bytes, ENTRY_BYTES * place, &e.to_bytes());
            Ok(())
        } else {
            Err(SaveFailed { place })
        }
    }
}
