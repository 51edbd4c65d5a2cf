// The quota: a layer that bounds how many items may wait for an addressee.
ghost use Rattle.std.specs.Prelude.{◌≡◌, nat_lt};
ghost use Rattle.model.specs.Sets.{member};
ghost use Rattle.posts.specs.Meaning.{waiting, Puts, Takes};
ghost use Rattle.posts.specs.Layers.{spared, rationed};
ghost use Rattle.std.proofs.Common.{rules};

use crate::post::{LONGEST, Post};
use model::sets::without;

// Offers a frame below only for those with fewer items waiting than the quota. In all else it is the post below.
// A type of its own beside the barrier, since the clauses of both name what each holds.
#[derive(Drop)]
pub struct Quota<P> {
    below: P,
    most: usize,
}

impl<P: Post> Quota<P> {
    // A quota over a post, with the most items that it lets wait for one addressee.
    pub fn new(below: P, most: usize) -> Quota<P>
        ensures { (result.below ≡ below) × (result.most ≡ most) }
    {
        Quota { below, most }
    }

    // Whether one more item may wait for q.
    fn has_room(&self, q: usize) -> bool
        ensures { result ≡ nat_lt (waiting q (P.Post.means.items self.now.below)) self.now.most }
    {
        self.below.waiting(q) < self.most
    }

    // Those of the set who have room.
    fn open_to(&self, to: u8) -> u8
        ensures { member result ≡ spared P.Post.means self.now (member to) }
    {
        let mut open = to;
        for q in 0..8 {
            if !self.has_room(q) {
                open = without(open, q);
            }
        }
        open
    }
}

impl<P: Post> Post for Quota<P> {
    ghost means = { rationed P.Post.means };

    ghost lawful = { Prim.search rules };

    fn put(&mut self, frame: &[u8], to: u8) -> usize
        ensures puts { Puts (rationed P.Post.means) self.old frame.now (member to) result self.new }
        ensures passed { Puts P.Post.means self.old.below frame.now (spared P.Post.means self.old (member to)) result self.new.below }
        ensures stands { self.new.most ≡ self.old.most }
    {
        let open = self.open_to(to);
        self.below.put(frame, open)
    }

    fn take(&mut self, q: usize, k: usize, out: &mut [u8; LONGEST]) -> Option<usize>
        ensures takes { Takes (rationed P.Post.means) self.old q k out.old result self.new out.new }
        ensures passed { Takes P.Post.means self.old.below q k out.old result self.new.below out.new }
        ensures stands { self.new.most ≡ self.old.most }
    {
        self.below.take(q, k, out)
    }

    fn waiting(&self, q: usize) -> usize {
        self.below.waiting(q)
    }
}
