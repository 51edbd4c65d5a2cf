// The kind of glyph numbers.
ghost use Rattle.std.specs.Prelude.{refl};
ghost use Rattle.kinds.specs.Glyphs.{glyph_numbers};
ghost use Rattle.kinds.specs.ValuesLemmas.{glyphs_lawful};

use crate::glyph::Glyph;
use crate::kind::Kind;

// Glyph numbers: each is its own code.
#[derive(Clone, Copy)]
pub struct GlyphNumbers;

impl Kind for GlyphNumbers {
    type Value = Glyph;

    const NUMBER: u8 = 1;

    ghost NUMBER = { 1 };

    ghost means = { glyph_numbers };

    ghost numbered = { refl };

    ghost lawful = { glyphs_lawful };

    fn code(v: Glyph) -> u64 {
        u64::from(v.number())
    }

    fn value(code: u64) -> Option<Glyph> {
        Glyph::at(code)
    }
}
