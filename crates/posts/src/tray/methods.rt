// Filling, reading and emptying a tray.
ghost use Rattle.std.specs.Prelude.{◌≡◌, ◌+◌, ◌<◌, ◌≤◌, [], ◌∷◌, ◌++◌, length, drop, IfOk, nat_lt, slice_index_or};
ghost use Rattle.std.specs.List.{remove};
ghost use Rattle.posts.specs.Meaning.{waiting, addressed, no_item};
ghost use Rattle.posts.specs.Places.{Finds};
ghost use Rattle.posts.specs.Trays.{tray_items};

use super::{ROOM, Tray};
use crate::parcel::Parcel;
use crate::post::LONGEST;
use crate::sendable::Sendable;
use std::alloc::{AllocError, Global};

impl Tray {
    // An empty tray, or an error for want of memory.
    pub(crate) fn new(heap: Global) -> Result<Tray, AllocError>
        ensures { IfOk result (λ tray. tray_items tray ≡ []) }
    {
        let parcels = Vec::with_capacity(heap, ROOM)?;
        Ok(Tray { parcels })
    }

    // How many items there are.
    pub(crate) fn len(&self) -> usize
        ensures { result ≡ length (tray_items self.now) }
    {
        self.parcels.len()
    }

    // Whether there is room for one more.
    pub(crate) fn has_room(&self) -> bool
        ensures room { result ≡ nat_lt (length (tray_items self.now)) 64 }
        ensures few { length (tray_items self.now) ≤ 64 }
    {
        self.parcels.len() < ROOM
    }

    // Adds an item at the end.
    pub(crate) fn push(&mut self, frame: Sendable, q: usize)
        requires { length (tray_items self.old) < 64 }
        ensures { tray_items self.new ≡ tray_items self.old ++ addressed frame.entry.bytes.now q ∷ [] }
    {
        self.parcels.push_reserved(Parcel::new(q, frame));
    }

    // Takes the item at i out.
    pub(crate) fn remove(&mut self, i: usize)
        requires { i < length (tray_items self.old) }
        ensures items { tray_items self.new ≡ remove (tray_items self.old) i }
        ensures len { length (tray_items self.new) + 1 ≡ length (tray_items self.old) }
    {
        self.parcels.remove(i);
    }

    // Copies the frame at i to the front of the buffer, and gives its length.
    pub(crate) fn open(&self, i: usize, out: &mut [u8; LONGEST]) -> usize
        requires { i < length (tray_items self.now) }
        ensures long { result ≡ length (slice_index_or (tray_items self.now) i no_item).frame }
        ensures opens { out.new ≡ (slice_index_or (tray_items self.now) i no_item).frame ++ drop result out.old }
    {
        self.parcels[i].open(out)
    }

    // How many items are for q.
    pub(crate) fn waiting(&self, q: usize) -> usize
        ensures { result ≡ waiting q (tray_items self.now) }
    {
        self.parcels
            .iter()
            .map(|parcel| usize::from(parcel.is_for(q)))
            .sum()
    }

    // Where the k-th item for q stands, counted from 0.
    pub(crate) fn find(&self, q: usize, k: usize) -> Option<usize>
        ensures { Finds (tray_items self.now) q k result }
    {
        let mut earlier = 0..k;
        self.parcels
            .iter()
            .position(|parcel| parcel.is_for(q) && earlier.next().is_none())
    }
}
