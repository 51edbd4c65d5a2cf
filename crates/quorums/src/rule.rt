// What a quorum rule is.
ghost use Rattle.std.specs.Prelude.{◌≡◌};
ghost use Rattle.model.specs.Sets.{member};
ghost use Rattle.quorums.specs.Meaning.{RuleMeaning, RuleLaws};

// A rule for one number of participants. Its sets are masks, of which the bits at and above that number never count.
pub trait QuorumRule {
    ghost means: { RuleMeaning Self };

    // The number of participants that the rule is for.
    fn size(&self) -> usize
        ensures { result ≡ means.size self.now };

    // Whether the set suffices to promise.
    fn promises(&self, set: u8) -> bool
        ensures { result ≡ means.promises self.now (member set) };

    // Whether the set suffices to choose.
    fn chooses(&self, set: u8) -> bool
        ensures { result ≡ means.chooses self.now (member set) };

    ghost lawful: { RuleLaws means };
}
