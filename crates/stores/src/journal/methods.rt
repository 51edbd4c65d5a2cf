// What a journal store does.
ghost use Rattle.std.specs.Prelude.{◌≡◌, ◌/◌, false, [], length, take, replicate, vec_len};
ghost use Rattle.std.specs.Int.Digits.{number_from_digits};
ghost use Rattle.model.specs.Entries.{clean};
ghost use Rattle.stores.specs.Journal.{newest, saved_bytes, journal_size, journal_bytes, journal_used, journal_takes, journal_saved, journal_means};
ghost use Rattle.stores.specs.Meaning.{Saves, Fresh};
ghost use Rattle.stores.specs.Saves.{newest_entry};
ghost use Rattle.std.proofs.Common.{rules};

use super::JournalStore;
use crate::raw::{entry_at, overwrite, slots, zeroed};
use crate::store::{SaveFailed, Store};
use model::entries::Entry;

// The most places that a journal can have.
pub const MOST_PLACES: usize = 448;

// The bytes of one save.
const SAVE_BYTES: usize = 14;

impl JournalStore {
    // An empty journal of these bytes, with so many places.
    pub fn new(bytes: Vec<u8>, places: usize) -> JournalStore
        ensures places { journal_means.places result ≡ journal_size places }
        ensures used { journal_used result ≡ [] }
        ensures bytes { journal_bytes result ≡ replicate (vec_len bytes) 0 }
        ensures fresh { Fresh journal_means result }
    {
        JournalStore {
            bytes: zeroed(bytes),
            saves: 0,
            places: if places <= MOST_PLACES { places } else { 0 },
        }
    }

    // The bytes that are used.
    pub fn used_bytes(&self) -> &[u8]
        ensures { result.now ≡ journal_used self.now }
    {
        &self.bytes[0..SAVE_BYTES * self.saves]
    }
}

impl Store for JournalStore {
    ghost means = { journal_means };

    ghost lawful = { Prim.search (rules, newest_entry) };

    fn places(&self) -> usize {
        self.places
    }

    fn load(&self, place: usize) -> Entry {
        if place < self.places {
            newest_save(self.used_bytes(), place)
        } else {
            Entry::none()
        }
    }

    fn save(&mut self, place: usize, e: Entry) -> Result<(), SaveFailed>
        ensures saves { Saves journal_means self.old place (clean e) result self.new }
        ensures used { journal_used self.new ≡ journal_saved self.old place (clean e) }
        ensures refused { journal_takes self.old place ≡ false → self.new ≡ self.old }
        ensures capacity { length (journal_bytes self.new) ≡ length (journal_bytes self.old) }
    {
        if place < self.places && self.saves < self.bytes.len() / SAVE_BYTES {
            overwrite(
                &mut self.bytes,
                SAVE_BYTES * self.saves,
                &record_of(place as u16, e),
            );
            self.saves += 1;
            Ok(())
        } else {
            Err(SaveFailed { place })
        }
    }
}

// The place of a save.
fn place_of(save: &[u8; SAVE_BYTES]) -> usize
    ensures { result ≡ number_from_digits 256 (take 2 save.now) }
{
    usize::from(u16::from_be_bytes([save[0], save[1]]))
}

// The newest save of the place.
fn newest_save(used: &[u8], place: usize) -> Entry
    ensures { result ≡ newest used.now place (length used.now / 14) }
{
    slots::<SAVE_BYTES>(used)
        .iter()
        .rev()
        .find(|save| place_of(save) == place)
        .map_or(Entry::none(), |save| entry_at(save, 2))
}

// The fourteen bytes of a save.
fn record_of(place: u16, e: Entry) -> [u8; SAVE_BYTES]
    ensures { result ≡ saved_bytes place (clean e) }
{
    let mut record = [0; SAVE_BYTES];
    record[..2].copy_from_slice(&place.to_be_bytes());
    record[2..].copy_from_slice(&e.to_bytes());
    record
}
