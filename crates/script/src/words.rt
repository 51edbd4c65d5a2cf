// The words of a line, divided by single spaces.
ghost use Rattle.script.specs.Numerals.{numeral};
ghost use Rattle.script.specs.Pieces.{pieces, space, CutAt};
ghost use Rattle.script.specs.Reading.{text, number, to_come, Next, first_number, is_empty};
ghost use Rattle.std.specs.Prelude.{◌≡◌, drop};

use crate::marks::split_first;

// A word, or a number with the word that spells it.
#[derive(Clone, Copy)]
pub enum Word<'a> {
    Text(&'a [u8]),
    Number(u32, &'a [u8]),
}

// What is left of a line to read; nothing after its last word.
#[derive(Drop)]
pub struct Words<'a> {
    rest: Option<&'a [u8]>,
}

impl<'a> Words<'a> {
    // All words of a line.
    pub fn of(line: &'a [u8]) -> Words<'a>
        ensures pieces { to_come result ≡ pieces line.now }
        ensures law { CutAt space line.now (to_come result) }
    {
        Words { rest: Some(line) }
    }

    // The next word, which is empty where two spaces meet or the line begins or ends with one.
    pub fn next_word(&mut self) -> Option<Word<'a>>
        ensures { Next (to_come self.old) result (to_come self.new) }
    {
        let (word, after) = split_first(b' ', self.rest?);
        self.rest = after;
        Some(Word::from(word))
    }

    // The next word's number, if it is one.
    pub fn next_number(&mut self) -> Option<u32>
        ensures value { result ≡ first_number (to_come self.old) }
        ensures after { to_come self.new ≡ drop 1 (to_come self.old) }
    {
        match self.next_word() {
            Some(Word::Number(n, _)) => Some(n),
            _ => None,
        }
    }

    // Whether every word was read.
    pub fn at_end(&self) -> bool
        ensures { result ≡ is_empty (to_come self.now) }
    {
        self.rest.is_none()
    }
}

// A word of 1 to 8 digits is a number.
impl<'a> From<&'a [u8]> for Word<'a> {
    ghost from_gives = { λ word w. (text w ≡ word.now) × (number w ≡ numeral word.now) };

    fn from(word: &'a [u8]) -> Word<'a> {
        match number_of(word) {
            Some(n) => Word::Number(n, word),
            None => Word::Text(word),
        }
    }
}

// The number that a word spells. (`parse` would take a leading + too.)
fn number_of(word: &[u8]) -> Option<u32>
    ensures { result ≡ numeral word.now }
{
    if word.is_empty() || word.len() > 8 {
        return None;
    }
    let mut n = 0;
    for b in word {
        n = n * 10 + char::from(*b).to_digit(10)?;
    }
    Some(n)
}
