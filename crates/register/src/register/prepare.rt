// Prepare: asking for promises.
ghost use Rattle.std.specs.Prelude.{◌≡◌, ◌<◌, true};
ghost use Rattle.model.specs.Entries.{is_entry};
ghost use Rattle.steps.specs.Entries.{promising};
ghost use Rattle.steps.specs.Rows.{entry_at};
ghost use Rattle.machine.specs.Board.{makes};
ghost use Rattle.machine.specs.Showing.{ShowsNoLess};
ghost use Rattle.register.specs.State.{board, turn};
ghost use Rattle.machine.specs.Calls.{Prepares};
ghost use Rattle.machine.specs.Refusals.{Opens, promise_fault};

use super::Register;
use crate::round::Round;
use frames::sort::Sort;
use kinds::kind::Kind;
use model::entries::Entry;
use model::faults::{Fault, check};
use model::rows::Row;
use posts::post::Post;
use quorums::rule::QuorumRule;
use steps::entry::promising;
use stores::store::Store;

impl<K: Kind, Q: QuorumRule, P: Post, S: Store> Register<K, Q, P, S> {
    // Participant p promises ballot b in cell c, saves that, and asks the others. Answers a round and for how many the frame was kept.
    #[tactic(auto, using(crate::proofs::Laws::at_most_itself))]
    pub fn prepare(
        &mut self,
        rows: &mut [Row],
        store: &mut S,
        post: &mut P,
        p: usize,
        c: usize,
        b: i32,
    ) -> Result<(Round, usize), Fault>
        ensures does { Prepares (makes K.Kind.means Q.QuorumRule.means P.Post.means S.Store.means) turn (board self.old rows.old store.old post.old) p c b result (board self.new rows.new store.new post.new) }
        ensures grows { ShowsNoLess rows.old rows.new }
    {
        let place = self.check_door(rows.len(), p, c)?;
        let next = self.check_promise(&rows[place], p, b)?;
        let kept = self.announce(rows, store, post, Sort::Prepare, p, c, next)?;
        Ok((Round::new(p, c, b), kept))
    }

    // Refusals 4 and 5; else participant p's entry with its new promise.
    fn check_promise(&self, row: &Row, p: usize, b: i32) -> Result<Entry, Fault>
        requires { p < self.now.size.n }
        ensures { Opens (promise_fault self.now.size.n row.now.entries p b) (λ e. (e ≡ promising (entry_at row.now.entries p) b) × (is_entry e ≡ true)) result }
    {
        let own = row.entries[p].clean();
        check(self.owns(p, b), Fault::NotItsBallot)?;
        check(own.promise < b, Fault::PromisedAlready)?;
        Ok(promising(own, b))
    }
}
