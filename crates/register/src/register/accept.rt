// Accept: voting for a value in a prepared ballot.
ghost use Rattle.std.specs.Prelude.{◌≡◌, ◌<◌, true};
ghost use Rattle.steps.specs.Rows.{same_ballot};
ghost use Rattle.machine.specs.Board.{makes, row_of};
ghost use Rattle.machine.specs.Showing.{ShowsNoLess, FromRow};
ghost use Rattle.register.specs.State.{board, table, turn};
ghost use Rattle.machine.specs.Calls.{Votes, Accepts};
ghost use Rattle.machine.specs.Refusals.{Opens, owns, vote_fault};

use super::Register;
use crate::round::Round;
use frames::sort::Sort;
use kinds::kind::Kind;
use model::faults::{Fault, check};
use model::rows::Row;
use posts::post::Post;
use quorums::rule::QuorumRule;
use steps::entry::voting;
use steps::row::{carried, promisers};
use stores::store::Store;

impl<K: Kind, Q: QuorumRule, P: Post, S: Store> Register<K, Q, P, S> {
    // Votes in the round's ballot for the value that the row binds it to, or for v where it is free, saves that, and asks the others. Answers the value carried and for how many the frame was kept. A refusal hands the round back.
    pub fn accept(
        &mut self,
        rows: &mut [Row],
        store: &mut S,
        post: &mut P,
        round: Round,
        v: K::Value,
    ) -> Result<(K::Value, usize), (Fault, Round)>
        ensures does { Accepts (makes K.Kind.means Q.QuorumRule.means P.Post.means S.Store.means) turn (board self.old rows.old store.old post.old) round v result (board self.new rows.new store.new post.new) }
        ensures grows { ShowsNoLess rows.old rows.new }
        ensures shown { FromRow K.Kind.means (row_of (table self.old rows.old) round.p round.c) self.old.size.n v result }
    {
        match self.vote(
            rows,
            store,
            post,
            round.participant(),
            round.cell(),
            round.ballot(),
            v,
        ) {
            Ok(answer) => {
                round.abandon();
                Ok(answer)
            }
            Err(fault) => Err((fault, round)),
        }
    }

    // By the numbers of a round, which itself stays with `accept`.
    fn vote(
        &mut self,
        rows: &mut [Row],
        store: &mut S,
        post: &mut P,
        p: usize,
        c: usize,
        b: i32,
        v: K::Value,
    ) -> Result<(K::Value, usize), Fault>
        ensures { Votes (makes K.Kind.means Q.QuorumRule.means P.Post.means S.Store.means) (board self.old rows.old store.old post.old) p c b v result (board self.new rows.new store.new post.new) }
    {
        let place = self.check_door(rows.len(), p, c)?;
        self.check_vote(&rows[place], p, b)?;
        let value = carried::<K>(&rows[place], self.size.n, v);
        let next = voting(b, K::code(value));
        let kept = self.announce(rows, store, post, Sort::Accept, p, c, next)?;
        Ok((value, kept))
    }

    // Refusals 6, 7 and 8.
    fn check_vote(&self, row: &Row, p: usize, b: i32) -> Result<(), Fault>
        requires { p < self.now.size.n }
        ensures { Opens (vote_fault Q.QuorumRule.means self.now.rule self.now.size.n row.now.entries p b) (λ _. owns self.now.size.n p b ≡ true) result }
    {
        let own = row.entries[p].clean();
        check(self.owns(p, b), Fault::NotPromised)?;
        check(same_ballot(own.promise, b), Fault::NotPromised)?;
        check(!same_ballot(own.vote, b), Fault::VotedAlready)?;
        let promising = promisers(row, self.size.n, b);
        check(self.rule.promises(promising), Fault::TooFew)
    }
}

// (A function for `==`: the proofs of the two tests did not close over the operator.)
fn same_ballot(a: i32, b: i32) -> bool
    ensures { result ≡ same_ballot a b }
{
    a == b
}
