// Lines as they come, from the keyboard or by mistake.
use crate::command::Command;
use crate::lines::Lines;
use crate::words::Words;

#[test]
fn commands_are_read(rt: HostRuntime) {
    assert_eq!(rt;
        Command::read(b"new 3 1"),
        Some(Command::New { n: 3, cells: 1 })
    );
    assert_eq!(rt;
        Command::read(b"prepare 0 2 003"),
        Some(Command::Prepare { p: 0, c: 2, b: 3 })
    );
    assert_eq!(rt;
        Command::read(b"deliver 1 99999999"),
        Some(Command::Deliver { q: 1, k: 99999999 })
    );
}

const BAD: [&[u8]; 9] = [
    b"",
    b"read  0 0",
    b" read 0 0",
    b"read 0 0 ",
    b"read 0 0\r",
    b"read 0 \xb2",
    b"read 0 123456789",
    b"read 0",
    b"accept 0 0 1 2",
];

#[test]
fn other_lines_are_not(rt: HostRuntime) {
    for line in BAD {
        assert_eq!(rt; Command::read(line), None);
    }
}

#[test]
fn words_are_divided(rt: HostRuntime) {
    let mut words = Words::of(b"007 ");
    assert_eq!(rt; words.next_number(), Some(7));
    assert!(rt; !words.at_end());
    assert_eq!(rt; words.next_number(), None);
    assert!(rt; words.at_end());
}

#[test]
fn lines_are_collected(rt: HostRuntime) {
    let mut lines = Lines::new();
    assert_eq!(rt; lines.take_from(b"a\nbc", 0), Some(2));
    assert_eq!(rt; lines.line(), Some(&b"a"[..]));
    lines.clear();
    assert!(rt; !lines.pending());
    assert_eq!(rt; lines.take_from(b"a\nbc", 2), None);
    assert!(rt; lines.pending());
    assert_eq!(rt; lines.take_from(b"d\n", 0), Some(2));
    assert_eq!(rt; lines.line(), Some(&b"bcd"[..]));
}

#[test]
fn the_rest_of_a_block_is_given_back(rt: HostRuntime) {
    let mut lines = Lines::new();
    assert_eq!(rt; lines.take(b"a\nbc\n"), Some(&b"bc\n"[..]));
    assert_eq!(rt; lines.line(), Some(&b"a"[..]));
    assert_eq!(rt; lines.take(b"bc"), None);
    assert_eq!(rt; lines.line(), Some(&b"abc"[..]));
}

#[test]
fn eighty_bytes_are_the_most(rt: HostRuntime) {
    let mut lines = Lines::new();
    assert_eq!(rt; lines.take_from(&[b'x'; 80], 0), None);
    assert!(rt; lines.line().is_some());
    assert_eq!(rt; lines.take_from(b"x\n", 0), Some(2));
    assert!(rt; lines.line().is_none() && lines.pending());
}
