// An entry: what is known of one participant's ballots in one cell.
ghost use Rattle.std.specs.Prelude.{◌≡◌};
ghost use Rattle.model.specs.Entries.{none, is_entry, clean};

// The highest ballot. Ballots are the whole numbers from 0 to this one.
pub const TOP_BALLOT: i32 = 16_777_214;

// Stands for no ballot.
pub const NO_BALLOT: i32 = -1;

// The number above the highest code.
pub const CODE_LIMIT: u64 = 0x1_0000_0000_0000;

// A promise, a vote and the code of the value voted for. -1 is no ballot. (A signed number and no Option, by a rule of the project: so rows, stores and calls have ballots, and compare them.)
#[derive(Clone, Copy, Debug, PartialEq, Eq)]
pub struct Entry {
    pub promise: i32,
    pub vote: i32,
    pub code: u64,
}

impl Entry {
    // The entry of somebody who has neither promised nor voted.
    pub fn none() -> Entry
        ensures { result ≡ none }
    {
        Entry {
            promise: NO_BALLOT,
            vote: NO_BALLOT,
            code: 0,
        }
    }

    // Whether the three numbers are an entry.
    pub fn is_entry(&self) -> bool
        ensures { result ≡ is_entry self.now }
    {
        NO_BALLOT <= self.vote
            && self.vote <= self.promise
            && self.promise <= TOP_BALLOT
            && self.code < CODE_LIMIT
            && (self.vote >= 0 || self.code == 0)
    }

    // The entry itself, or none where the numbers are no entry.
    pub fn clean(&self) -> Entry
        ensures { result ≡ clean self.now }
    {
        if self.is_entry() {
            *self
        } else {
            Entry::none()
        }
    }
}
