// What every call asks first, and whose a ballot is.
ghost use Rattle.std.specs.Prelude.{◌≡◌, ◌*◌, ◌<◌, ◌&&◌, ◌==◌, nat_lt};
ghost use Rattle.model.specs.declared.faults.Fault.TheVariants.{Nowhere};
ghost use Rattle.model.specs.Checks.{demand, unless};
ghost use Rattle.machine.specs.Refusals.{Opens, owns, door_at, cell_door_at};
ghost use Rattle.register.specs.Places.{Here};

use super::Register;
use crate::size::Size;
use kinds::kind::Kind;
use model::entries::TOP_BALLOT;
use model::faults::{Fault, check};
use model::sets::has;
use posts::post::Post;
use quorums::rule::QuorumRule;
use stores::store::Store;

impl<K: Kind, Q: QuorumRule, P: Post, S: Store> Register<K, Q, P, S> {
    pub(crate) fn size(&self) -> Size
        ensures { result ≡ self.now.size }
    {
        self.size
    }

    // Refusal 2 of a call that names a participant.
    pub(super) fn check_rows(&self, rows: usize, p: usize) -> Result<(), Fault>
        ensures { Opens (demand (nat_lt p self.now.size.n && rows == self.now.size.n * self.now.size.cells) Nowhere) (λ _. (p < self.now.size.n) × (rows ≡ self.now.size.n * self.now.size.cells)) result }
    {
        check(
            p < self.size.n && rows == self.size.places(),
            Fault::Nowhere,
        )
    }

    // Refusals 2 and 3 of a call that names a participant.
    pub(super) fn check_participant(&self, rows: usize, p: usize) -> Result<(), Fault>
        ensures { Opens (door_at self.now.size.n self.now.size.cells self.now.down rows p) (λ _. (p < self.now.size.n) × (rows ≡ self.now.size.n * self.now.size.cells)) result }
    {
        self.check_rows(rows, p)?;
        check(!has(self.down, p), Fault::IsDown)
    }

    // Refusals 2 and 3 of a call that names a participant and a cell; else the place of its row. (No struct of the three: that it is of this register's size and of these rows would be a clause of each function that took it.)
    pub(super) fn check_door(&self, rows: usize, p: usize, c: usize) -> Result<usize, Fault>
        ensures { Opens (cell_door_at self.now.size.n self.now.size.cells self.now.down rows p c) (Here self.now.size rows p c) result }
    {
        check(c < self.size.cells, Fault::Nowhere)?;
        self.check_participant(rows, p)?;
        Ok(self.size.place(p, c))
    }

    // Whether the ballot is one, and participant p's.
    pub(super) fn owns(&self, p: usize, b: i32) -> bool
        ensures { result ≡ owns self.now.size.n p b }
    {
        0 <= b && b <= TOP_BALLOT && b as usize % self.size.n == p
    }
}
