// A round: the right to accept once with a prepared ballot.
ghost use Rattle.std.specs.Prelude.{◌≡◌, negsuc};

// A round of participant p in cell c with ballot b. It comes only from prepare, and accept or abandon ends it: letting one go is refused by the check.
pub struct Round {
    p: usize,
    c: usize,
    b: i32,
}

impl Drop for Round {
    // Only a round without a ballot may be let go, and prepare gives no such round.
    fn drop(self)
        requires { self.b ≡ negsuc 0 }
    {
        let Round { p: _, c: _, b: _ } = self;
    }
}

impl Round {
    // For prepare, and for a session that kept the ballot between two lines.
    pub(crate) fn new(p: usize, c: usize, b: i32) -> Round
        ensures { (result.p ≡ p) × (result.c ≡ c) × (result.b ≡ b) }
    {
        Round { p, c, b }
    }

    // The participant that prepared.
    pub fn participant(&self) -> usize
        ensures { result ≡ self.now.p }
    {
        self.p
    }

    // The cell.
    pub fn cell(&self) -> usize
        ensures { result ≡ self.now.c }
    {
        self.c
    }

    // The ballot.
    pub fn ballot(&self) -> i32
        ensures { result ≡ self.now.b }
    {
        self.b
    }

    // Ends the round, and gives its ballot to a session that keeps it.
    pub(crate) fn spend(self) -> i32
        ensures { result ≡ self.b }
    {
        let Round { p: _, c: _, b } = self;
        b
    }

    // Ends the round without accepting. Nothing else changes.
    pub fn abandon(self) {
        let Round { p: _, c: _, b: _ } = self;
    }
}
