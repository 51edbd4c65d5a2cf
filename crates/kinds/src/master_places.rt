// The kind of masters' places.
ghost use Rattle.std.specs.Prelude.{◌≡◌, ◌<◌, ◌/◌, ◌%◌, ◌^◌, refl};
ghost use Rattle.std.specs.Int.{w16};
ghost use Rattle.std.proofs.Common.{of_z, to_z};
ghost use Rattle.kinds.specs.Places.{master_places};
ghost use Rattle.kinds.specs.Packing.{places_lawful};

use crate::kind::Kind;
use crate::place::Place;

// Places of masters: a code holds the three coordinates in 16 bits each, two's complement, the first one highest.
#[derive(Clone, Copy)]
pub struct MasterPlaces;

impl Kind for MasterPlaces {
    type Value = Place;

    const NUMBER: u8 = 2;

    ghost NUMBER = { 2 };

    ghost means = { master_places };

    ghost numbered = { refl };

    ghost lawful = { places_lawful };

    fn code(v: Place) -> u64 {
        (bits(v.first()) << 32) + (bits(v.second()) << 16) + bits(v.third())
    }

    fn value(code: u64) -> Option<Place> {
        if code >= 1 << 48 {
            return None;
        }
        Place::at(piece(code, 32), piece(code, 16), piece(code, 0))
    }
}

// A coordinate's 16 bits.
fn bits(coordinate: i16) -> u64
    ensures { result ≡ of_z w16 coordinate }
{
    u64::from(coordinate.cast_unsigned())
}

// The coordinate in the 16 bits of a code from this one up.
fn piece(code: u64, from: u32) -> i32
    requires { from < 64 }
    ensures { result ≡ to_z w16 (code / 2 ^ from % 2 ^ 16) }
{
    i32::from((((code >> from) & 0xffff) as u16).cast_signed())
}
