// One field after another is damaged.
use crate::flags::Flags;
use frames::header::Header;
use frames::reader::read;
use frames::sort::Sort;
use frames::writer::write;
use model::entries::Entry;
use model::faults::Fault;
use model::rows::Row;
use std::test::Fail;

// A prepare of participant 0 among three: it has promised 3, has seen 1 promise 5 and vote yes in 2, and nothing of 2.
const WHOLE: &[u8; 40] =
    b"\x13\x01\x06\0\0\0\x04\0\0\0\0\0\0\0\0\0\0\0\x06\0\0\x03\0\0\0\0\0\x01\0\0\0\0\0\0\0\0\0\0\0\0";

// What the reader of participant 1 says of a frame in a register of three participants and one cell.
fn fault(bytes: &[u8]) -> Option<(u8, usize)> {
    fault_at(bytes, 3, 1, 1)
}

fn fault_at(bytes: &[u8], n: usize, cells: usize, q: usize) -> Option<(u8, usize)> {
    match read::<Flags>(bytes, n, cells, q) {
        Ok(_) => None,
        Err(f) => {
            let f = Fault::from(f);
            Some((f.number(), f.place()))
        }
    }
}

#[test]
fn damaged_bytes(rt: HostRuntime) {
    // the byte, what it becomes, and the fault's number and place
    let table: [(usize, u8, u8, usize); 20] = [
        (0, 0xd3, 10, 0), // sort 3
        (0, 0x03, 10, 0), // edition 0
        (0, 0x23, 10, 0), // edition 2
        (0, 0x11, 10, 0), // one participant
        (0, 0x18, 10, 0), // eight
        (0, 0x12, 10, 40), // two, so the length is wrong
        (0, 0x14, 10, 40), // four
        (1, 0x31, 10, 1), // sender 3
        (1, 0x11, 10, 2), // a prepare of 1 to 1 and 2
        (0, 0x93, 10, 2), // an ack to two
        (2, 0x07, 10, 2), // to the sender too
        (2, 0x02, 10, 2), // a prepare to one
        (1, 0x02, 11, 1), // kind 2
        (3, 0x01, 11, 3), // cell 1
        (9, 5, 10, 7), // a vote above its promise
        (15, 1, 10, 10), // a code without a vote
        (21, 7, 10, 19), // a vote above its promise
        (27, 2, 10, 22), // a vote for no value
        (33, 1, 10, 31), // a vote without a promise
        (34, 1, 10, 34), // a code without a vote
    ];
    assert_eq!(rt; fault(WHOLE), None);
    for (at, byte, number, place) in table {
        let mut bytes = *WHOLE;
        assert!(rt; at < 40);
        bytes[at] = byte;
        assert_eq!(rt; fault(&bytes), Some((number, place)));
    }
}

#[test]
fn two_faults(rt: HostRuntime) {
    // two bytes, what they become, and the fault of the two that counts
    let table: [(usize, u8, usize, u8, u8, usize); 6] = [
        (0, 0x14, 1, 0x71, 10, 40), // the length before the sender
        (0, 0x24, 2, 0x00, 10, 0), // the edition before the length
        (21, 7, 27, 2, 10, 19), // the vote before the code
        (15, 1, 21, 7, 10, 10), // entry 0 before entry 1
        (1, 0x02, 21, 7, 10, 19), // ill formed before another kind
        (1, 0x02, 27, 2, 11, 1), // a code that another kind may have
    ];
    for (first, one, second, two, number, place) in table {
        let mut bytes = *WHOLE;
        assert!(rt; first < 40 && second < 40);
        bytes[first] = one;
        bytes[second] = two;
        assert_eq!(rt; fault(&bytes), Some((number, place)));
    }
}

#[test]
fn other_lengths(rt: HostRuntime) {
    let mut bytes = [0u8; 88];
    bytes[0..40].copy_from_slice(WHOLE);
    for len in 0..89 {
        let expected = if len == 40 { None } else { Some((10, len)) };
        assert_eq!(rt; fault(&bytes[0..len]), expected);
    }
}

#[test]
fn other_registers(rt: HostRuntime) {
    // n, cells and the reader, and the fault's place
    let table = [
        (4, 1, 1, 0),
        (3, 0, 1, 3),
        (3, 1, 0, 2),
        (3, 1, 3, 2),
        (3, 1, 9, 2),
    ];
    for (n, cells, q, place) in table {
        assert_eq!(rt; fault_at(WHOLE, n, cells, q), Some((11, place)));
    }
    assert_eq!(rt; fault_at(WHOLE, 3, 64, 2), None);
}

fn entry(promise: i32, vote: i32, code: u64) -> Entry {
    Entry {
        promise,
        vote,
        code,
    }
}

#[test]
fn written_and_read(rt: HostRuntime) -> Result<(), Fail> {
    let header = Header {
        sort: Sort::Accept,
        n: 3,
        sender: 2,
        kind: 1,
        to: 3,
        cell: 7,
    };
    let (none, voted) = (Entry::none(), entry(16_777_214, 16_777_213, 1));
    // a vote above its promise is no entry, and is written as none
    let row = Row {
        entries: [none, voted, entry(1, 2, 0), voted, none, none, none],
    };
    let mut out = [0xee; 88];
    assert_eq!(rt; write(&header, &row, &mut out), 40);
    assert_eq!(rt;
        [out[0], out[1], out[2], out[3], out[39], out[40], out[87]],
        [0x53, 0x21, 3, 7, 0, 0xee, 0xee]
    );
    let Ok(frame) = read::<Flags>(&out[0..40], 3, 8, 0) else {
        return Err(Fail::new("it does not read"));
    };
    assert_eq!(rt; frame.header.sender, 2);
    let expected = [none, voted, none, none, none, none, none];
    assert_eq!(rt; frame.row.entries, expected);
    Ok(())
}
