// The commands of a script.
ghost use Rattle.script.specs.Commands.{command_of, ReadsAs, named, taking, listed, Gathers};
ghost use Rattle.script.specs.Pieces.{pieces};
ghost use Rattle.script.specs.Reading.{to_come};
ghost use Rattle.std.specs.Prelude.{◌≡◌, [], ◌∷◌};

use crate::words::{Word, Words};

// One line of a script that could be read.
#[derive(Clone, Copy, Debug, PartialEq, Eq)]
pub enum Command {
    New { n: u32, cells: u32 },
    Prepare { p: u32, c: u32, b: u32 },
    Accept { p: u32, c: u32, v: u32 },
    Abandon { p: u32, c: u32 },
    Deliver { q: u32, k: u32 },
    Read { p: u32, c: u32 },
}

// The numbers that end a line: a command takes two or three.
#[derive(Clone, Copy)]
enum Numbers {
    Two(u32, u32),
    Three(u32, u32, u32),
}

impl Command {
    // What a line spells, if it spells a command.
    pub fn read(line: &[u8]) -> Option<Command>
        ensures value { result ≡ command_of (pieces line.now) }
        ensures law { ReadsAs (pieces line.now) result }
    {
        Command::of_words(Words::of(line))
    }

    // What words spell: a name, and numbers behind it.
    fn of_words(mut words: Words) -> Option<Command>
        ensures { result ≡ command_of (to_come words.entry) }
    {
        match words.next_word()? {
            Word::Text(name) => Command::called(name, Numbers::read(words)?),
            Word::Number(_, _) => None,
        }
    }

    // The command of this name that takes these numbers.
    fn called(name: &[u8], numbers: Numbers) -> Option<Command>
        ensures { result ≡ named name.now (taking (listed numbers)) }
    {
        match (name, numbers) {
            (b"new", Numbers::Two(n, cells)) => Some(Command::New { n, cells }),
            (b"prepare", Numbers::Three(p, c, b)) => Some(Command::Prepare { p, c, b }),
            (b"accept", Numbers::Three(p, c, v)) => Some(Command::Accept { p, c, v }),
            (b"abandon", Numbers::Two(p, c)) => Some(Command::Abandon { p, c }),
            (b"deliver", Numbers::Two(q, k)) => Some(Command::Deliver { q, k }),
            (b"read", Numbers::Two(p, c)) => Some(Command::Read { p, c }),
            _ => None,
        }
    }
}

impl Numbers {
    // The words that are left, if they are two or three numbers.
    fn read(mut words: Words) -> Option<Numbers>
        ensures { Gathers (to_come words.entry) result }
    {
        let a = words.next_number()?;
        let b = words.next_number()?;
        if words.at_end() {
            return Some(Numbers::Two(a, b));
        }
        let c = words.next_number()?;
        words.at_end().then_some(Numbers::Three(a, b, c))
    }
}
