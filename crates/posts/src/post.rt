// What a post is.
ghost use Rattle.std.specs.Prelude.{◌≡◌};
ghost use Rattle.model.specs.Sets.{member};
ghost use Rattle.posts.specs.Meaning.{PostMeaning, PostLaws, Puts, Takes, waiting};

// The longest frame.
pub const LONGEST: usize = 88;

// A post holds an ordered list of items, each an addressee and a frame. Addressees are the participants 0 to 7 of a mask.
pub trait Post {
    ghost means: { PostMeaning Self };

    // Offers a frame to a set of addressees, and says for how many it was kept.
    fn put(&mut self, frame: &[u8], to: u8) -> usize
        ensures { Puts means self.old frame.now (member to) result self.new };

    // Copies the k-th frame that waits for q, counted from 0, to the front of the buffer, and gives its length.
    fn take(&mut self, q: usize, k: usize, out: &mut [u8; LONGEST]) -> Option<usize>
        ensures { Takes means self.old q k out.old result self.new out.new };

    // How many items wait for q.
    fn waiting(&self, q: usize) -> usize
        ensures { result ≡ waiting q (means.items self.now) };

    ghost lawful: { PostLaws means };
}
