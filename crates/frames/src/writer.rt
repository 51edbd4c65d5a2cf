// Writing a frame.
ghost use Rattle.std.specs.Prelude.{◌≡◌, ◌+◌, ◌*◌, ◌≤◌, ◌++◌, length, take, drop};
ghost use Rattle.frames.specs.Layout.{heading_of, laid_out, four_bytes, entry_bytes};

use crate::header::Header;
use model::entries::Entry;
use model::rows::Row;

// The edition of the layout.
pub const EDITION: u8 = 1;

// Writes the header and the first n entries of the row to the front of the buffer, and gives the frame's length. The rest of the buffer stands. (The caller's buffer with the length beside it: that its rest stands is promised.)
pub fn write(header: &Header, row: &Row, out: &mut [u8; 88]) -> usize
    ensures length { result ≡ 4 + 12 * header.now.n }
    ensures whole { result ≡ length (laid_out (heading_of header.now) (take header.now.n row.now.entries)) }
    ensures buffer { out.new ≡ laid_out (heading_of header.now) (take header.now.n row.now.entries) ++ drop result out.old }
{
    write_header(header, out);
    for (i, entry) in row.entries[..header.n].iter().enumerate() {
        write_entry(entry, place_of(i), out);
    }
    place_of(header.n)
}

// Where entry i begins, past four bytes and the entries before it. A frame of n entries ends where entry n would begin.
pub(crate) fn place_of(i: usize) -> usize
    requires { i ≤ 7 }
    ensures { result ≡ 4 + 12 * i }
{
    12 * i + 4
}

fn write_header(header: &Header, out: &mut [u8; 88])
    ensures { out.new ≡ four_bytes (heading_of header.now) ++ drop 4 out.old }
{
    out[0] = u8::from(header.sort) * 64 + EDITION * 16 + header.n as u8;
    out[1] = header.sender as u8 * 16 + header.kind;
    out[2] = header.to;
    out[3] = header.cell as u8;
}

fn write_entry(entry: &Entry, place: usize, out: &mut [u8; 88])
    requires { place + 12 ≤ 88 }
    ensures { out.new ≡ take place out.old ++ (entry_bytes entry.now ++ drop (place + 12) out.old) }
{
    out[place..place + 12].copy_from_slice(&entry.to_bytes());
}
