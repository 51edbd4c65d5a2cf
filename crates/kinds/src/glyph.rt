// A glyph number.
ghost use Rattle.std.specs.Prelude.{◌≡◌, ◌≤◌};

use model::faults::Fault;

// A glyph's number in the font, from 0 to 65534.
#[derive(Clone, Copy, Debug, PartialEq, Eq)]
pub struct Glyph {
    number: u16,
    ghost ok: { number ≤ 65534 },
}

impl Glyph {
    ghost use Rattle.kinds.specs.Glyphs.{glyph_at, made_glyph};

    // The glyph of this number, or refusal 13. (A maker by the name that all values' and rules' makers have, and so no TryFrom.)
    pub fn new(number: u32) -> Result<Glyph, Fault>
        ensures { result ≡ made_glyph number }
    {
        Glyph::at(u64::from(number)).ok_or(Fault::OutOfRange)
    }

    // The glyph of this number, if it is a glyph's. (In the closure of `then` the bound would be a clause of its own.)
    pub fn at(number: u64) -> Option<Glyph>
        ensures { result ≡ glyph_at number }
    {
        if number <= 65534 {
            Some(Glyph {
                number: number as u16,
            })
        } else {
            None
        }
    }

    // The glyph's number.
    pub fn number(&self) -> u16
        ensures { result ≡ self.now.number }
    {
        self.number
    }
}
