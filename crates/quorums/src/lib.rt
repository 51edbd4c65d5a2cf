// Quorum rules: which sets of participants suffice to promise, and which to choose.
#![tactic(auto)]

pub mod majority;
pub mod rule;
pub mod weighted;

#[cfg(test)]
mod tests {
    use crate::majority::Majority;
    use crate::rule::QuorumRule;
    use crate::weighted::Weighted;
    use std::test::Fail;

    #[test]
    fn rules(rt: HostRuntime) -> Result<(), Fail> {
        let four = Majority::new(4)?;
        assert!(rt; !four.promises(0b011));
        assert!(rt; four.chooses(0b111));
        assert!(rt; Weighted::new(&[3, 1, 1], 3, 3).is_ok());
        assert!(rt; Weighted::new(&[3, 1, 1], 2, 3).is_err());
        Ok(())
    }
}
