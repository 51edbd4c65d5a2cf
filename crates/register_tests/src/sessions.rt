// Whole scripts, line by line.
use model::faults::Fault;
use register::answer::Answer;
use register::session::Session;
use std::test::Fail;

// Each line with the answer it must get.
fn play(rt: &HostRuntime, lines: &[(&str, Answer)]) -> Result<(), Fail> {
    let mut session = Session::new();
    for (line, want) in lines {
        let got = session.answer(rt.alloc(), line.as_bytes())?;
        if got != *want {
            return Err(Fail::new(format_args!("{line}: {got:?}, and not {want:?}")));
        }
    }
    Ok(())
}

#[test]
fn three_offices_settle_a_glyph(rt: HostRuntime) -> Result<(), Fail> {
    play(
        &rt,
        &[
            ("new 3 1", Answer::Done),
            ("prepare 0 0 3", Answer::Kept(2)),
            ("deliver 1 0", Answer::Kept(1)),
            ("deliver 0 0", Answer::Kept(0)),
            ("accept 0 0 68", Answer::Carried(68, 2)),
            ("deliver 1 0", Answer::Kept(1)),
            ("deliver 0 0", Answer::Kept(0)),
            ("read 0 0", Answer::Chosen(3, 68)),
            ("read 1 0", Answer::Chosen(3, 68)),
            ("read 2 0", Answer::Open),
        ],
    )
}

#[test]
fn lines_that_cannot_be_read_or_placed(rt: HostRuntime) -> Result<(), Fail> {
    play(
        &rt,
        &[
            ("prepare 0 0 3", Answer::Bad),
            ("", Answer::Bad),
            ("new 3", Answer::Bad),
            ("new  3 1", Answer::Bad),
            ("new 3 1 ", Answer::Bad),
            (" new 3 1", Answer::Bad),
            ("new 3 1\r", Answer::Bad),
            ("new 3 000000001", Answer::Bad),
            ("new 1 1", Answer::No(Fault::Unfit)),
            ("new 8 1", Answer::No(Fault::Unfit)),
            ("new 3 0", Answer::No(Fault::Unfit)),
            ("new 3 65", Answer::No(Fault::Unfit)),
            ("new 3 00000001", Answer::Done),
            ("new 3 1", Answer::Bad),
            ("restart 0", Answer::Bad),
            ("read 0 -1", Answer::Bad),
            ("Read 0 0", Answer::Bad),
            ("read 0 0", Answer::Open),
        ],
    )
}

#[test]
fn refusals_of_a_session(rt: HostRuntime) -> Result<(), Fail> {
    play(
        &rt,
        &[
            ("new 3 2", Answer::Done),
            ("prepare 3 0 3", Answer::No(Fault::Nowhere)),
            ("prepare 0 2 3", Answer::No(Fault::Nowhere)),
            ("deliver 3 0", Answer::No(Fault::Nowhere)),
            ("read 0 2", Answer::No(Fault::Nowhere)),
            ("prepare 0 0 4", Answer::No(Fault::NotItsBallot)),
            ("prepare 0 0 16777215", Answer::No(Fault::NotItsBallot)),
            ("prepare 2 1 16777214", Answer::Kept(2)),
            ("accept 0 0 7", Answer::NoRound),
            ("accept 9 9 70000", Answer::NoRound),
            ("abandon 0 0", Answer::NoRound),
            ("prepare 0 0 3", Answer::Kept(2)),
            ("prepare 0 0 3", Answer::No(Fault::PromisedAlready)),
            ("accept 0 0 65535", Answer::No(Fault::OutOfRange)),
            ("accept 0 0 7", Answer::No(Fault::TooFew)),
            ("deliver 1 7", Answer::No(Fault::NoItem)),
            ("abandon 0 0", Answer::Done),
            ("abandon 0 0", Answer::NoRound),
        ],
    )
}

// A second proposer's prepare raises the first one's promise: its round no longer holds, and stays held.
#[test]
fn a_round_that_was_overtaken(rt: HostRuntime) -> Result<(), Fail> {
    play(
        &rt,
        &[
            ("new 3 1", Answer::Done),
            ("prepare 0 0 3", Answer::Kept(2)),
            ("deliver 1 0", Answer::Kept(1)),
            ("deliver 0 0", Answer::Kept(0)),
            ("prepare 1 0 4", Answer::Kept(2)),
            ("deliver 0 0", Answer::Kept(1)),
            ("accept 0 0 9", Answer::No(Fault::NotPromised)),
            ("accept 0 0 9", Answer::No(Fault::NotPromised)),
            ("deliver 1 0", Answer::Kept(0)),
            ("accept 1 0 11", Answer::Carried(11, 2)),
            ("prepare 0 0 6", Answer::Kept(2)),
            ("deliver 0 0", Answer::Kept(1)),
            ("read 0 0", Answer::Open),
        ],
    )
}
