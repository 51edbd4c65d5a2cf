// Reading a frame.
ghost use Rattle.std.specs.Prelude.{◌≡◌, ◌+◌, ◌*◌, ◌<◌, ◌≤◌, length};
ghost use Rattle.frames.specs.Layout.{heading_of, entry_in};
ghost use Rattle.model.specs.Checks.{demand, unless};
ghost use Rattle.frames.specs.Reading.{HeaderRead, entry_fault, first_of, row_in, code_counts, fault_at, address_fault, first_fault, Answered};
ghost use Rattle.frames.specs.Tables.{first_wrong, table};

use crate::fault::ReaderFault::{self, IllFormed, NotForUs};
use crate::header::Header;
use crate::sort::Sort;
use crate::writer::{EDITION, place_of};
use kinds::kind::Kind;
use model::entries::Entry;
use model::faults::check;
use model::rows::Row;
use model::sets::has;

// A frame that was read: its header and one entry for each participant; the slots at and above n are none.
#[derive(Clone, Copy)]
pub struct Frame {
    pub header: Header,
    pub row: Row,
}

// Reads any bytes as a frame for participant q of a register of n participants and so many cells.
#[tactic(auto, using(crate::proofs::TableLaws::by_table))]
pub fn read<K: Kind>(bytes: &[u8], n: usize, cells: usize, q: usize) -> Result<Frame, ReaderFault>
    ensures answered { Answered K.Kind.means bytes.now n cells q result }
    ensures by_table { first_fault K.Kind.means bytes.now n cells q ≡ first_wrong (table K.Kind.means bytes.now n cells q) }
{
    let header = read_header(bytes)?;
    let row = read_row::<K>(bytes, &header)?;
    check_address::<K>(&header, n, cells, q)?;
    Ok(Frame { header, row })
}

fn read_header(bytes: &[u8]) -> Result<Header, ReaderFault>
    ensures { HeaderRead bytes.now result }
{
    let len = bytes.len();
    let [first, second, to, cell, ..] = *bytes else {
        return Err(IllFormed(len));
    };
    let sort = Sort::try_from(first / 64).map_err(|_| IllFormed(0))?;
    check(first / 16 % 4 == EDITION, IllFormed(0))?;
    let n = usize::from(first % 16);
    check((2..=7).contains(&n), IllFormed(0))?;
    check(len == place_of(n), IllFormed(len))?;
    let sender = usize::from(second / 16);
    check(sender < n, IllFormed(1))?;
    check(sort.may_go_to(n, sender, to), IllFormed(2))?;
    Ok(Header {
        sort,
        n,
        sender,
        kind: second % 16,
        to,
        cell: usize::from(cell),
    })
}

fn read_row<K: Kind>(bytes: &[u8], header: &Header) -> Result<Row, ReaderFault>
    requires { length bytes.now ≡ 4 + 12 * header.now.n }
    ensures { result ≡ unless (first_of (fault_at K.Kind.means bytes.now header.now.kind) header.now.n) (row_in bytes.now header.now.n) }
{
    let mut entries = [Entry::none(); 7];
    for (i, slot) in entries[..header.n].iter_mut().enumerate() {
        *slot = read_entry::<K>(bytes, i, header.kind)?;
    }
    Ok(Row { entries })
}

fn read_entry<K: Kind>(bytes: &[u8], i: usize, kind: u8) -> Result<Entry, ReaderFault>
    requires { (i < 7) × (16 + 12 * i ≤ length bytes.now) }
    ensures { result ≡ unless (fault_at K.Kind.means bytes.now kind i) (entry_in bytes.now i) }
{
    let place = place_of(i);
    let e = Entry::read(bytes, place).unwrap();
    check_entry(&e, counts::<K>(kind, e.code), place)?;
    Ok(e)
}

// Whether a code may be voted for in a frame of this kind.
fn counts<K: Kind>(kind: u8, code: u64) -> bool
    ensures { result ≡ code_counts K.Kind.means kind code }
{
    kind != K::NUMBER || K::value(code).is_some()
}

fn check_entry(e: &Entry, counts: bool, place: usize) -> Result<(), ReaderFault>
    requires { place < 100 }
    ensures { result ≡ unless (entry_fault counts e.now place) tt }
{
    check(e.vote <= e.promise, IllFormed(place + 3))?;
    check(e.vote >= 0 || e.code == 0, IllFormed(place + 6))?;
    check(e.vote < 0 || counts, IllFormed(place + 6))
}

// n, cells and q stay apart, as in `read`: a struct would be packed there only to be unpacked here.
fn check_address<K: Kind>(
    header: &Header,
    n: usize,
    cells: usize,
    q: usize,
) -> Result<(), ReaderFault>
    ensures { result ≡ unless (address_fault K.Kind.means (heading_of header.now) n cells q) tt }
{
    check(header.n == n, NotForUs(0))?;
    check(header.kind == K::NUMBER, NotForUs(1))?;
    check(has(header.to, q), NotForUs(2))?;
    check(header.cell < cells, NotForUs(3))
}
