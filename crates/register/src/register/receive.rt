// Receive: taking over what another participant knows.
ghost use Rattle.std.specs.Prelude.{◌≡◌, ℕ, ◌*◌, ◌<◌, ◌≤◌, true, List, length, ◌≢◌};
ghost use Rattle.frames.specs.Reading.{Spells};
ghost use Rattle.frames.specs.Sorts.{well_addressed};
ghost use Rattle.frames.specs.declared.sort.Sort.TheVariants.{Ack};
ghost use Rattle.model.specs.Sets.{single as mask_of_one};
ghost use Rattle.machine.specs.Board.{makes};
ghost use Rattle.machine.specs.Showing.{ShowsNoLess};
ghost use Rattle.register.specs.State.{board};
ghost use Rattle.machine.specs.Calls.{AcksRow, Receives, TakesOver};

use super::Register;
use super::save::{keep_change, renew};
use frames::reader::{Frame, read};
use frames::sort::Sort;
use kinds::kind::Kind;
use model::faults::Fault;
use model::rows::Row;
use model::sets::single;
use posts::post::Post;
use quorums::rule::QuorumRule;
use steps::entry::{adopted, behind, seen};
use stores::store::Store;

impl<K: Kind, Q: QuorumRule, P: Post, S: Store> Register<K, Q, P, S> {
    // Participant q reads a frame, of any bytes, and takes over what the sender knows. Where the sender is behind, q answers it. Says for how many that answer was kept.
    #[tactic(auto, using(crate::proofs::Laws::at_most_itself))]
    pub fn receive(
        &mut self,
        rows: &mut [Row],
        store: &mut S,
        post: &mut P,
        q: usize,
        frame: &[u8],
    ) -> Result<usize, Fault>
        ensures does { Receives (makes K.Kind.means Q.QuorumRule.means P.Post.means S.Store.means) (board self.old rows.old store.old post.old) q frame.now result (board self.new rows.new store.new post.new) }
        ensures grows { ShowsNoLess rows.old rows.new }
    {
        self.check_participant(rows.len(), q)?;
        let frame = read::<K>(frame, self.size.n, self.size.cells, q)?;
        self.take_over(rows, store, post, q, &frame)
    }

    fn take_over(
        &mut self,
        rows: &mut [Row],
        store: &mut S,
        post: &mut P,
        q: usize,
        frame: &Frame,
    ) -> Result<usize, Fault>
        requires { (q < self.old.size.n) × ((length rows.old ≡ self.old.size.n * self.old.size.cells) × ((bytes : List ℕ) × Spells K.Kind.means bytes self.old.size.n self.old.size.cells q frame.now)) }
        ensures { TakesOver (makes K.Kind.means Q.QuorumRule.means P.Post.means S.Store.means) (board self.old rows.old store.old post.old) q frame.now result (board self.new rows.new store.new post.new) }
    {
        let sender = frame.header.sender;
        let c = frame.header.cell;
        let place = self.size.place(q, c);
        let s = frame.row.entries[sender];
        let own = rows[place].entries[q].clean();
        let next = adopted(own, s);
        keep_change(store, &mut self.down, q, place, own, next)?;
        let view = seen(rows[place].entries[sender].clean(), s);
        renew(&mut rows[place], sender, view);
        renew(&mut rows[place], q, next);
        let owed = behind(frame.row.entries[q], next);
        Ok(self.acknowledge(post, &rows[place], owed, q, c, sender))
    }

    // Puts participant q's row to the sender if an ack is owed. Says for how many it was kept. (Owed is a flag, as in the relation of the step: it stands beside no value that is there only with it.)
    #[tactic(auto, using(frames::proofs::Addresses::ack_addressed))]
    fn acknowledge(
        &self,
        post: &mut P,
        row: &Row,
        owed: bool,
        q: usize,
        c: usize,
        sender: usize,
    ) -> usize
        requires { (q < self.now.size.n) × ((c < self.now.size.cells) × ((sender < self.now.size.n) × ((sender ≢ q)))) }
        ensures { AcksRow (makes K.Kind.means Q.QuorumRule.means P.Post.means S.Store.means) owed self.now.size.n row.now.entries post.old q c sender result post.new }
    {
        if !owed {
            return 0;
        }
        self.put_row(post, row, Sort::Ack, q, c, single(sender))
    }
}
