// Read-out: what a participant's row shows as chosen.
ghost use Rattle.machine.specs.Board.{makes};
ghost use Rattle.register.specs.State.{table};
ghost use Rattle.machine.specs.Calls.{ReadsOut};

use super::Register;
use kinds::kind::Kind;
use model::faults::Fault;
use model::rows::Row;
use posts::post::Post;
use quorums::rule::QuorumRule;
use steps::row::shown;
use stores::store::Store;

impl<K: Kind, Q: QuorumRule, P: Post, S: Store> Register<K, Q, P, S> {
    // The highest ballot that participant p's row shows as chosen in cell c, with its value; nothing while the cell is open.
    pub fn read_out(
        &self,
        rows: &[Row],
        p: usize,
        c: usize,
    ) -> Result<Option<(i32, K::Value)>, Fault>
        ensures { ReadsOut (makes K.Kind.means Q.QuorumRule.means P.Post.means S.Store.means) (table self.now rows.now) p c result }
    {
        let place = self.check_door(rows.len(), p, c)?;
        Ok(shown::<K, Q>(&rows[place], self.size.n, &self.rule))
    }
}
