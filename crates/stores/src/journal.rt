// The journal store.
ghost use Rattle.std.specs.Prelude.{◌*◌, ◌≤◌, vec_len};

// The saves so far, one after the other in bytes of the caller's, fourteen for each. The newest of a place counts.
// No list of saves stands in place of the count: the bytes are as many as the caller handed over, and what is said of them takes in the unused ones.
#[derive(Debug, Drop)]
pub struct JournalStore {
    bytes: Vec<u8>,
    saves: usize,
    places: usize,
    ghost within: { 14 * saves ≤ vec_len bytes },
    ghost few: { places ≤ 448 },
}

// In a file of their own, since what their contracts cite names the struct above.
mod methods;

pub use methods::MOST_PLACES;
