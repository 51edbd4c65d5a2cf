// Deliver: receiving what waits in the post.
ghost use Rattle.machine.specs.Board.{makes};
ghost use Rattle.machine.specs.Showing.{ShowsNoLess};
ghost use Rattle.register.specs.State.{board};
ghost use Rattle.machine.specs.Calls.{Delivers};

use super::Register;
use kinds::kind::Kind;
use model::faults::Fault;
use model::rows::Row;
use posts::post::Post;
use quorums::rule::QuorumRule;
use stores::store::Store;

impl<K: Kind, Q: QuorumRule, P: Post, S: Store> Register<K, Q, P, S> {
    // Participant q takes the k-th item that waits for it, counted from 0, into the buffer and receives it.
    #[tactic(auto, using(crate::proofs::Laws::at_most_itself))]
    pub fn deliver(
        &mut self,
        rows: &mut [Row],
        store: &mut S,
        post: &mut P,
        q: usize,
        k: usize,
        buffer: &mut [u8; 88],
    ) -> Result<usize, Fault>
        ensures does { Delivers (makes K.Kind.means Q.QuorumRule.means P.Post.means S.Store.means) (board self.old rows.old store.old post.old) q k buffer.old result (board self.new rows.new store.new post.new) buffer.new }
        ensures grows { ShowsNoLess rows.old rows.new }
    {
        self.check_participant(rows.len(), q)?;
        let len = post.take(q, k, buffer).ok_or(Fault::NoItem)?;
        self.receive(rows, store, post, q, &buffer[0..len])
    }
}
