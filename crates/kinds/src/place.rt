// A master's place.
ghost use Rattle.std.specs.Prelude.{◌≡◌, T, if◌then◌else◌};
ghost use Rattle.kinds.specs.Axes.{on_axis, on_axes};

use model::faults::Fault;

// Where a master stands on three axes. A coordinate counts in units of 1/16384 (F2DOT14) and runs from -1 to 1.
// (Three fields by name, each with its reader, and no array: a place is a plain record of coordinates, by a rule of the project.)
#[derive(Clone, Copy, Debug, PartialEq, Eq)]
pub struct Place {
    first: i16,
    second: i16,
    third: i16,
    ghost ok: { T (on_axes first second third) },
}

// The end of an axis, 1.
const END: i16 = 16384;

// The coordinate, if it is on an axis.
fn on_axis(coordinate: i32) -> Option<i16>
    ensures { result ≡ (if on_axis coordinate then Some coordinate else None) }
{
    i16::try_from(coordinate)
        .ok()
        .filter(|c| (-END..=END).contains(c))
}

impl Place {
    ghost use Rattle.kinds.specs.Examples.{GlyphExamples, PlaceExamples};
    ghost use Rattle.kinds.specs.Places.{place_at, made_place};

    // The place with these coordinates, or refusal 13.
    #[tactic(auto, using(crate::proofs::Worked::glyph_examples, crate::proofs::Worked::place_examples))]
    pub fn new(first: i32, second: i32, third: i32) -> Result<Place, Fault>
        ensures value { result ≡ made_place first second third }
        ensures examples { GlyphExamples × PlaceExamples }
    {
        Place::at(first, second, third).ok_or(Fault::OutOfRange)
    }

    // The place with these coordinates, if each is on its axis.
    pub fn at(first: i32, second: i32, third: i32) -> Option<Place>
        ensures { result ≡ place_at first second third }
    {
        Some(Place {
            first: on_axis(first)?,
            second: on_axis(second)?,
            third: on_axis(third)?,
        })
    }

    // The coordinate on the first axis.
    pub fn first(&self) -> i16
        ensures { result ≡ self.now.first }
    {
        self.first
    }

    // The coordinate on the second axis.
    pub fn second(&self) -> i16
        ensures { result ≡ self.now.second }
    {
        self.second
    }

    // The coordinate on the third axis.
    pub fn third(&self) -> i16
        ensures { result ≡ self.now.third }
    {
        self.third
    }
}
