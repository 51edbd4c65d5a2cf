// Reading and writing the bytes that a store was handed.
ghost use Rattle.std.specs.Prelude.{◌≡◌, ℕ, ◌+◌, ◌*◌, ◌/◌, ◌<◌, ◌≤◌, List, length, take, drop, replicate, slice_index_or, vec_len};
ghost use Rattle.model.specs.Bytes.{spelled};
ghost use Rattle.model.specs.Entries.{clean};
ghost use Rattle.stores.specs.Parts.{overwritten};

use model::entries::Entry;

// The bytes of an entry.
pub(crate) const ENTRY_BYTES: usize = 12;

// As many bytes, all zero.
pub(crate) fn zeroed(mut bytes: Vec<u8>) -> Vec<u8>
    ensures items { result.items ≡ replicate (vec_len bytes) 0 }
    ensures len { vec_len result ≡ vec_len bytes }
{
    bytes.fill(0);
    bytes
}

// Each whole so many bytes, one after the other.
#[tactic(auto, using(crate::proofs::Slots::slot_at))]
pub(crate) fn slots<const N: usize>(bytes: &[u8]) -> &[[u8; N]]
    requires { 0 < N }
    ensures count { length result.now ≡ length bytes.now / N }
    ensures each { (k : ℕ) (d : List ℕ) → k < length bytes.now / N → slice_index_or result.now k d ≡ take N (drop (N * k) bytes.now) }
{
    bytes.as_chunks::<N>().0
}

// The entry that the twelve bytes from here on spell.
pub(crate) fn entry_at(bytes: &[u8], from: usize) -> Entry
    requires { from + 12 ≤ length bytes.now }
    ensures { result ≡ clean (spelled (take 12 (drop from bytes.now))) }
{
    Entry::read(bytes, from).map_or(Entry::none(), |e| e.clean())
}

// Puts the part over the bytes from here on. (By offset and no slot: of what is written through `as_chunks_mut` std says nothing.)
pub(crate) fn overwrite(bytes: &mut Vec<u8>, from: usize, part: &[u8])
    requires { from + length part.now ≤ vec_len bytes.old }
    ensures items { bytes.new.items ≡ overwritten bytes.old.items from part.now }
    ensures len { vec_len bytes.new ≡ vec_len bytes.old }
{
    bytes[from..from + part.len()].copy_from_slice(part);
}
