// More than half of the participants.
ghost use Rattle.std.specs.Prelude.{◌≡◌, ◌≤◌, T};
ghost use Rattle.model.specs.Sets.{member};
ghost use Rattle.quorums.specs.Sizes.{is_size};
ghost use Rattle.quorums.specs.Weights.{weight_of};

use crate::rule::QuorumRule;
use model::faults::Fault;
use model::sets;

// The majority rule for n participants, 2 to 7.
#[derive(Clone, Copy, Debug, PartialEq, Eq)]
pub struct Majority {
    n: usize,
    ghost ok: { T (is_size n) },
}

impl Majority {
    ghost use Rattle.quorums.specs.Majorities.{made_majority};

    // The majority rule for n participants, or refusal 14.
    pub fn new(n: usize) -> Result<Majority, Fault>
        ensures { result ≡ made_majority n }
    {
        if (2..=7).contains(&n) {
            Ok(Majority { n })
        } else {
            Err(Fault::NoRule)
        }
    }

    // How many of the n participants are in the set.
    fn counted(&self, set: u8) -> usize
        ensures value { result ≡ weight_of (λ i. 1) self.now.n (member set) }
        ensures upper_bound { result ≤ 8 }
    {
        (set & sets::all(self.n)).count_ones() as usize
    }
}

impl QuorumRule for Majority {
    ghost use Rattle.quorums.specs.Halves.{majority_lawful};
    ghost use Rattle.quorums.specs.Majorities.{majority};

    ghost means = { majority };

    ghost lawful = { majority_lawful };

    fn size(&self) -> usize {
        self.n
    }

    fn promises(&self, set: u8) -> bool {
        2 * self.counted(set) > self.n
    }

    // The same sets choose.
    fn chooses(&self, set: u8) -> bool {
        self.promises(set)
    }
}
