// What a step does with the entry and the row that it has made.
ghost use Rattle.std.specs.Prelude.{◌≡◌, ◌*◌, ◌<◌, true, length, slice_set};
ghost use Rattle.model.specs.Entries.{is_entry};
ghost use Rattle.model.specs.Sets.{member, all_but};
ghost use Rattle.posts.specs.Meaning.{Puts};
ghost use Rattle.frames.specs.Sorts.{well_addressed};
ghost use Rattle.machine.specs.Board.{makes};
ghost use Rattle.register.specs.State.{board};
ghost use Rattle.machine.specs.Calls.{sent, Announces};
ghost use Rattle.machine.specs.Keeping.{Keeps, KeepsChange};

use super::Register;
use frames::header::Header;
use frames::sort::Sort;
use frames::writer::write;
use kinds::kind::Kind;
use model::entries::Entry;
use model::faults::Fault;
use model::rows::Row;
use model::sets::{all_but, with};
use posts::post::Post;
use quorums::rule::QuorumRule;
use stores::store::Store;

// Writes participant i's entry into the row.
pub(super) fn renew(row: &mut Row, i: usize, e: Entry)
    requires { i < 7 }
    ensures { row.new ≡ record { entries = slice_set row.old.entries i e } }
{
    row.entries[i] = e;
}

// Saves participant p's entry. Where that fails p is down. (An entry as a step makes it, and no type for one that counts, which would be opened again for row, store and frame. Not by map_err: what its closure writes to down gets no proof.)
pub(super) fn keep<S: Store>(
    store: &mut S,
    down: &mut u8,
    p: usize,
    place: usize,
    e: Entry,
) -> Result<(), Fault>
    requires { is_entry e ≡ true }
    ensures { Keeps S.Store.means store.old down.old p place e result store.new down.new }
{
    let Err(failed) = store.save(place, e) else {
        return Ok(());
    };
    *down = with(*down, p);
    Err(Fault::from(failed))
}

// Saves participant p's entry where it is another than before.
pub(super) fn keep_change<S: Store>(
    store: &mut S,
    down: &mut u8,
    p: usize,
    place: usize,
    old: Entry,
    new: Entry,
) -> Result<(), Fault>
    requires { is_entry new ≡ true }
    ensures { KeepsChange S.Store.means store.old down.old p place old new result store.new down.new }
{
    if new == old {
        return Ok(());
    }
    keep(store, down, p, place, new)
}

impl<K: Kind, Q: QuorumRule, P: Post, S: Store> Register<K, Q, P, S> {
    // Puts the row of participant p in cell c to these addressees.
    pub(super) fn put_row(
        &self,
        post: &mut P,
        row: &Row,
        sort: Sort,
        p: usize,
        c: usize,
        to: u8,
    ) -> usize
        requires { (p < self.now.size.n) × ((c < self.now.size.cells) × (well_addressed sort self.now.size.n p to ≡ true)) }
        ensures { Puts P.Post.means post.old (sent K.Kind.means self.now.size.n sort p c to row.now.entries) (member to) result post.new }
    {
        let header = Header {
            sort,
            n: self.size.n,
            sender: p,
            kind: K::NUMBER,
            to,
            cell: c,
        };
        let mut frame = [0u8; 88];
        let len = write(&header, row, &mut frame);
        post.put(&frame[0..len], to)
    }

    // Saves participant p's new own entry, writes it into p's row, and puts that row to all others. Says for how many it was kept.
    pub(super) fn announce(
        &mut self,
        rows: &mut [Row],
        store: &mut S,
        post: &mut P,
        sort: Sort,
        p: usize,
        c: usize,
        e: Entry,
    ) -> Result<usize, Fault>
        requires { (p < self.old.size.n) × ((c < self.old.size.cells) × ((length rows.old ≡ self.old.size.n * self.old.size.cells) × ((is_entry e ≡ true) × (well_addressed sort self.old.size.n p (all_but self.old.size.n p) ≡ true)))) }
        ensures { Announces (makes K.Kind.means Q.QuorumRule.means P.Post.means S.Store.means) (board self.old rows.old store.old post.old) sort p c e result (board self.new rows.new store.new post.new) }
    {
        let place = self.size.place(p, c);
        keep(store, &mut self.down, p, place, e)?;
        renew(&mut rows[place], p, e);
        Ok(self.put_row(post, &rows[place], sort, p, c, all_but(self.size.n, p)))
    }
}
