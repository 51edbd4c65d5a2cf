// What a session answers to a line.
#![tactic(auto)]

ghost use Rattle.std.specs.Prelude.{◌≡◌, Some};
ghost use Rattle.answers.specs.Texts.{text};
ghost use Rattle.answers.specs.declared.Answer.TheVariants.{No};

use model::faults::Fault;
use std::fmt;

// The answer to one line of a script.
#[derive(Clone, Copy, Debug, PartialEq, Eq)]
pub enum Answer {
    // The line cannot be read, or has no place here.
    Bad,
    // Refused.
    No(Fault),
    // No round is held to accept or abandon.
    NoRound,
    // Taken, with nothing to tell.
    Done,
    // Taken: for how many addressees a frame was kept.
    Kept(usize),
    // An accept taken: the value carried, and for how many addressees its frame was kept.
    Carried(u16, usize),
    // A read-out: the ballot and the value chosen.
    Chosen(i32, u16),
    // A read-out of a cell that shows no choice.
    Open,
}

impl From<Fault> for Answer {
    ghost from_gives = { λ fault answer. answer ≡ No fault };

    fn from(fault: Fault) -> Answer {
        Answer::No(fault)
    }
}

impl fmt::Display for Answer {
    ghost output = { λ a. Some (text a) };

    fn fmt<W: fmt::Write>(&self, f: &mut fmt::Formatter<W>) -> fmt::Result {
        match self {
            Answer::Bad => write!(f, "bad"),
            Answer::No(fault) => write!(f, "no {}", fault.number()),
            Answer::NoRound => write!(f, "no 0"),
            Answer::Done => write!(f, "ok"),
            Answer::Kept(kept) => write!(f, "ok {kept}"),
            Answer::Carried(value, kept) => write!(f, "ok {value} {kept}"),
            Answer::Chosen(ballot, value) => write!(f, "ok {ballot} {value}"),
            Answer::Open => write!(f, "open"),
        }
    }
}
