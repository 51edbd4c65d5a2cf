// One frame on its way, as a post holds it.
ghost use Rattle.std.specs.Prelude.{◌≡◌, true, ◌++◌, length, drop};
ghost use Rattle.posts.specs.Meaning.{addressed, is_for, sendable};

use crate::post::LONGEST;
use crate::sendable::Sendable;
use arrayvec::ArrayVec;
use std::marker::Model;

// A frame for one addressee, of 1 to 88 bytes.
#[derive(Drop)]
pub struct Parcel {
    to: usize,
    frame: ArrayVec<u8, LONGEST>,
}

impl Model for Parcel {
    ghost use Rattle.posts.specs.Meaning.{Item};

    ghost Value = { Item };

    ghost use Rattle.posts.specs.Parcels.{meant, Carriable};

    ghost view = { meant };

    ghost invariant = { Carriable };
}

impl Parcel {
    // The frame, addressed to one.
    pub(crate) fn new(to: usize, frame: Sendable) -> Parcel
        ensures { result ≡ addressed frame.entry.bytes.now to }
    {
        let mut bytes = ArrayVec::new();
        bytes.try_extend_from_slice(frame.bytes).unwrap();
        Parcel { to, frame: bytes }
    }

    // Whether the frame is for q.
    pub(crate) fn is_for(&self, q: usize) -> bool
        ensures { result ≡ is_for q self.now }
    {
        self.to == q
    }

    // Copies the frame to the front of the buffer, and gives its length.
    pub(crate) fn open(&self, out: &mut [u8; LONGEST]) -> usize
        ensures long { result ≡ length self.now.frame }
        ensures opens { out.new ≡ self.now.frame ++ drop result out.old }
        ensures carriable { sendable self.now.frame ≡ true }
    {
        let frame = self.frame.as_slice();
        out[..frame.len()].copy_from_slice(frame);
        frame.len()
    }
}
