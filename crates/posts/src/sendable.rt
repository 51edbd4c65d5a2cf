// What a post can carry.
ghost use Rattle.std.specs.Prelude.{◌≡◌, true, false, IfSome, IfNone};
ghost use Rattle.posts.specs.Meaning.{sendable};

use crate::post::LONGEST;

// A frame that has been found to be of 1 to 88 bytes.
#[derive(Clone, Copy)]
pub struct Sendable<'a> {
    pub(crate) bytes: &'a [u8],
    ghost fits: { sendable bytes.now ≡ true },
}

impl<'a> Sendable<'a> {
    // The frame, if a post can carry it.
    pub(crate) fn of(bytes: &'a [u8]) -> Option<Sendable<'a>>
        ensures same { IfSome result (λ frame. frame.bytes.now ≡ bytes.now) }
        ensures unfit { IfNone result (sendable bytes.now ≡ false) }
    {
        if 0 < bytes.len() && bytes.len() <= LONGEST {
            Some(Sendable { bytes })
        } else {
            None
        }
    }
}
