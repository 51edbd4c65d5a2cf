// The theory of agreement for one cell.
#![tactic(auto)]

ghost use Rattle.std.specs.Prelude.{◌≡◌, true};
ghost use Rattle.model.specs.Sets.{member};
ghost use Rattle.ledger.specs.Agreement.{Agreement, Handed, NeverAhead, Settled};
ghost use Rattle.ledger.specs.Examples.{Worked};

use quorums::rule::QuorumRule;

// Whether votes of all these participants for one value, in one ballot, settle the cell for good.
pub fn settles<Q: QuorumRule>(rule: &Q, voters: u8) -> bool
    ensures value { result ≡ Q.QuorumRule.means.chooses rule.now (member voters) }
    ensures settled { result ≡ true → Settled Q.QuorumRule.means rule.now (member voters) }
    ensures agreed { Agreement Q.QuorumRule.means rule.now }
    ensures handed { Handed Q.QuorumRule.means rule.now }
    ensures behind { NeverAhead Q.QuorumRule.means rule.now }
    ensures worked { Worked }
{
    rule.chooses(voters)
}
