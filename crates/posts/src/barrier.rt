// The barrier: a layer that keeps frames from a set of addressees.
ghost use Rattle.std.specs.Prelude.{◌≡◌};
ghost use Rattle.model.specs.Sets.{member};
ghost use Rattle.posts.specs.Layers.{past, barred};
ghost use Rattle.posts.specs.Meaning.{Puts, Takes};
ghost use Rattle.std.proofs.Common.{rules};

use crate::post::{LONGEST, Post};

// Offers a frame below without those that it is shut to. In all else it is the post below. (A type beside the quota, since the clauses of both name what each holds.)
#[derive(Drop)]
pub struct Barrier<P> {
    below: P,
    shut: u8,
}

impl<P: Post> Barrier<P> {
    // A barrier over a post, with the set that it is shut to.
    pub fn new(below: P, shut: u8) -> Barrier<P>
        ensures { (result.below ≡ below) × (result.shut ≡ shut) }
    {
        Barrier { below, shut }
    }

    // Those of the set that it is not shut to.
    fn open_to(&self, to: u8) -> u8
        ensures { member result ≡ past self.now (member to) }
    {
        to & !self.shut
    }
}

impl<P: Post> Post for Barrier<P> {
    ghost means = { barred P.Post.means };

    ghost lawful = { Prim.search rules };

    fn put(&mut self, frame: &[u8], to: u8) -> usize
        ensures puts { Puts (barred P.Post.means) self.old frame.now (member to) result self.new }
        ensures passed { Puts P.Post.means self.old.below frame.now (past self.old (member to)) result self.new.below }
        ensures stands { self.new.shut ≡ self.old.shut }
    {
        let open = self.open_to(to);
        self.below.put(frame, open)
    }

    fn take(&mut self, q: usize, k: usize, out: &mut [u8; LONGEST]) -> Option<usize>
        ensures takes { Takes (barred P.Post.means) self.old q k out.old result self.new out.new }
        ensures passed { Takes P.Post.means self.old.below q k out.old result self.new.below out.new }
        ensures stands { self.new.shut ≡ self.old.shut }
    {
        self.below.take(q, k, out)
    }

    fn waiting(&self, q: usize) -> usize {
        self.below.waiting(q)
    }
}
