// The twelve bytes of an entry, as frames and stores hold it.
ghost use Rattle.std.specs.Prelude.{◌≡◌, ◌^◌, ◌<◌, ◌≤◌, true, length, take, drop, IfSome};
ghost use Rattle.std.specs.Int.Digits.{number_from_digits};
ghost use Rattle.model.specs.Bytes.{big, raised, lowered, written, spelled, spelled_at};
ghost use Rattle.model.specs.Entries.{clean, is_entry};

use crate::entries::Entry;

// A ballot as its field holds it: one more, so that none is 0.
fn field_of(b: i32) -> u32
    ensures { result ≡ raised b }
{
    if b < 0 { 0 } else { b as u32 + 1 }
}

fn ballot_of(field: u64) -> i32
    requires { field < 2 ^ 24 }
    ensures { result ≡ lowered field }
{
    if field == 0 { -1 } else { (field - 1) as i32 }
}

// The number that a few bytes spell, highest first. (`from_be_bytes` takes four or eight, and so no plainer.)
fn number_of(bytes: &[u8]) -> u64
    requires { length bytes.now ≤ 6 }
    ensures value { result ≡ number_from_digits 256 bytes.now }
    ensures fits { result < 256 ^ length bytes.now }
{
    let mut n = 0u64;
    for b in bytes {
        n = n * 256 + *b as u64;
    }
    n
}

impl Entry {
    // The entry's bytes; those of none where the numbers are no entry.
    pub fn to_bytes(&self) -> [u8; 12]
        ensures bytes { result ≡ written (clean self.now) }
        ensures reads_back { spelled result ≡ clean self.now }
    {
        let e = self.clean();
        let mut bytes = [0; 12];
        bytes[..3].copy_from_slice(&field_of(e.promise).to_be_bytes()[1..]);
        bytes[3..6].copy_from_slice(&field_of(e.vote).to_be_bytes()[1..]);
        bytes[6..].copy_from_slice(&e.code.to_be_bytes()[2..]);
        bytes
    }

    // What the twelve bytes from this place on spell, or none of it where there are fewer. It need not be an entry.
    pub fn read(bytes: &[u8], place: usize) -> Option<Entry>
        ensures value { result ≡ spelled_at bytes.now place }
        ensures only_so { IfSome result (λ e. written e ≡ take 12 (drop place bytes.now)) }
    {
        if bytes.len() < 12 || place > bytes.len() - 12 {
            return None;
        }
        Some(Entry::spelled(&bytes[place..place + 12]))
    }

    fn spelled(bytes: &[u8]) -> Entry
        requires { length bytes.now ≡ 12 }
        ensures value { result ≡ spelled bytes.now }
        ensures only_so { written result ≡ bytes.now }
    {
        Entry {
            promise: ballot_of(number_of(&bytes[0..3])),
            vote: ballot_of(number_of(&bytes[3..6])),
            code: number_of(&bytes[6..12]),
        }
    }
}
