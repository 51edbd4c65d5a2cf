// What a line and a shelf hold their items in.
ghost use Rattle.std.specs.Prelude.{◌≡◌, ◌≤◌, true, length, vec_items, vec_capacity};
ghost use Rattle.std.specs.List.{All};
ghost use Rattle.posts.specs.Meaning.{sendable};

use crate::parcel::Parcel;

// The most items that a tray holds.
const ROOM: usize = 64;

// Up to 64 parcels in the order they came.
// The room for them is reserved when the tray is made, so that nothing later wants memory.
#[derive(Drop)]
pub struct Tray {
    parcels: Vec<Parcel>,
    ghost few: { length (vec_items parcels) ≤ 64 },
    ghost room: { 64 ≤ vec_capacity parcels },
    ghost carried: { All (λ item. sendable item.frame ≡ true) (vec_items parcels) },
}

mod methods;
