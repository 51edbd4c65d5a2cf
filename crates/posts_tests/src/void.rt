// A post that loses everything.
ghost use Rattle.std.specs.Prelude.{false, []};
ghost use Rattle.std.proofs.Common.{rules};

use posts::post::Post;

// Keeps nobody's frame, and so is a post too.
#[derive(Clone, Copy)]
pub struct Void;

impl Post for Void {
    ghost means = { record { items = λ _. []; keeps = λ _ _ _ _. false } };

    ghost lawful = { Prim.search rules };

    fn put(&mut self, frame: &[u8], to: u8) -> usize {
        0
    }

    fn take(&mut self, q: usize, k: usize, out: &mut [u8; 88]) -> Option<usize> {
        None
    }

    fn waiting(&self, q: usize) -> usize {
        0
    }
}
