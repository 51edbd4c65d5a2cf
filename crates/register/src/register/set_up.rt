// Set-up and restart: rows that start from the store.
ghost use Rattle.std.specs.Prelude.{◌≡◌, ℕ, ◌+◌, ◌*◌, ◌^◌, ◌<◌, length, IfOk};
ghost use Rattle.model.specs.declared.faults.Fault.TheVariants.{Unfit};
ghost use Rattle.machine.specs.Board.{makes};
ghost use Rattle.machine.specs.Law.{FreshLaw};
ghost use Rattle.machine.specs.Specimens.{Specimens};
ghost use Rattle.machine.specs.Worked.{Worked};
ghost use Rattle.model.specs.Checks.{demand};
ghost use Rattle.machine.specs.Refusals.{Opens};
ghost use Rattle.machine.specs.Starts.{first_row, row_in, fits, Reloaded, FirstRows, Restarts, SetsUp};
ghost use Rattle.register.specs.State.{table};

use super::Register;
use crate::size::Size;
use kinds::kind::Kind;
use model::entries::Entry;
use model::faults::{Fault, check};
use model::rows::Row;
use model::sets::without;
use posts::post::Post;
use quorums::rule::QuorumRule;
use std::marker::PhantomData;
use stores::store::Store;

impl<K: Kind, Q: QuorumRule + Drop, P: Post, S: Store> Register<K, Q, P, S> {
    // A register of n participants and so many cells. Each participant's rows hold its own entries from the store and know nothing of the others.
    pub fn set_up(
        n: usize,
        cells: usize,
        rule: Q,
        rows: &mut [Row],
        store: &S,
    ) -> Result<Register<K, Q, P, S>, Fault>
        ensures made { SetsUp (makes K.Kind.means Q.QuorumRule.means P.Post.means S.Store.means) table n cells rule rows.old store.now result rows.new }
        ensures law { IfOk result (λ register. FreshLaw (makes K.Kind.means Q.QuorumRule.means P.Post.means S.Store.means) (table register rows.new) store.now) }
        ensures worked { Specimens × Worked }
    {
        let size = Self::fitting(n, cells, &rule, rows.len(), store)?;
        Self::reload_all(rows, store, size);
        Ok(Register {
            size,
            rule,
            down: 0,
            kind: PhantomData,
            post: PhantomData,
            store: PhantomData,
        })
    }
}

impl<K: Kind, Q: QuorumRule, P: Post, S: Store> Register<K, Q, P, S> {
    // The size of a register that can be set up so; else refusal 1.
    fn fitting(n: usize, cells: usize, rule: &Q, rows: usize, store: &S) -> Result<Size, Fault>
        ensures { Opens (demand (fits (makes K.Kind.means Q.QuorumRule.means P.Post.means S.Store.means) n cells rule.now rows store.now) Unfit) (λ size. (size.n ≡ n) × (size.cells ≡ cells)) result }
    {
        let size = Size::new(n, cells).ok_or(Fault::Unfit)?;
        let places = size.places();
        check(
            rows == places && rule.size() == n && store.places() >= places,
            Fault::Unfit,
        )?;
        Ok(size)
    }

    // Participant p's rows start again from what the store keeps, and p is no longer down.
    pub fn restart(&mut self, rows: &mut [Row], store: &S, p: usize) -> Result<(), Fault>
        ensures { Restarts (makes K.Kind.means Q.QuorumRule.means P.Post.means S.Store.means) (table self.old rows.old) store.now p result (table self.new rows.new) }
    {
        self.check_rows(rows.len(), p)?;
        Self::reload(rows, store, self.size, p);
        self.down = without(self.down, p);
        Ok(())
    }

    fn reload_all(rows: &mut [Row], store: &S, size: Size)
        requires { length rows.old ≡ size.n * size.cells }
        ensures long { length rows.new ≡ length rows.old }
        ensures first { FirstRows (makes K.Kind.means Q.QuorumRule.means P.Post.means S.Store.means) size.n size.cells store.now rows.new }
    {
        for p in 0..size.n {
            Self::reload(rows, store, size, p);
        }
    }

    fn reload(rows: &mut [Row], store: &S, size: Size, p: usize)
        requires { (p < size.n) × (length rows.old ≡ size.n * size.cells) }
        ensures { Reloaded (makes K.Kind.means Q.QuorumRule.means P.Post.means S.Store.means) size.cells store.now p rows.old rows.new }
    {
        let from = size.place(p, 0);
        Self::start_from(&mut rows[from..from + size.cells], store, p, from);
    }

    // These rows of participant p's start from the places of the store from this one on.
    fn start_from(rows: &mut [Row], store: &S, p: usize, from: usize)
        requires { (p < 7) × (from + length rows.old < 2 ^ 64) }
        ensures long { length rows.new ≡ length rows.old }
        ensures own { (c : ℕ) → c < length rows.new → row_in rows.new c ≡ first_row p (S.Store.means.at store.now (from + c)) }
    {
        for (c, row) in rows.iter_mut().enumerate() {
            *row = first_row(p, store.load(from + c));
        }
    }
}

// A row that knows only its holder's own entry.
fn first_row(p: usize, own: Entry) -> Row
    requires { p < 7 }
    ensures { result ≡ first_row p own }
{
    let mut row = Row::empty();
    row.entries[p] = own;
    row
}
