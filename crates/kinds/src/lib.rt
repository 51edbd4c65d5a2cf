// Kinds of value: what a cell can be settled to.
#![tactic(auto)]

pub mod glyph;
pub mod glyph_numbers;
pub mod kind;
pub mod master_places;
pub mod place;

#[cfg(test)]
mod tests {
    use crate::glyph::Glyph;
    use crate::glyph_numbers::GlyphNumbers;
    use crate::kind::Kind;
    use crate::master_places::MasterPlaces;
    use crate::place::Place;
    use std::test::Fail;

    #[test]
    fn codes(rt: HostRuntime) -> Result<(), Fail> {
        assert_eq!(rt; GlyphNumbers::code(Glyph::new(65534)?), 65534);
        assert!(rt; Glyph::new(65535).is_err());
        assert_eq!(rt;
            MasterPlaces::code(Place::new(-16384, 0, 16384)?),
            0xC000_0000_4000
        );
        assert!(rt; Place::new(0, -16385, 0).is_err());
        Ok(())
    }
}
