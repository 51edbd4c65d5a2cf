// What a running session answers to a line.
ghost use Rattle.std.specs.Prelude.{◌≡◌, IfOk};
ghost use Rattle.std.specs.Option.{option_map};
ghost use Rattle.register.specs.State.{turn};
ghost use Rattle.register.specs.Sessions.{sitting, told, Opens, Runs, PrepareLine, AcceptLine, AcceptsRound, AbandonLine, DeliverLine, ReadLine, RestartLine};

use super::Desk;
use crate::bench::Bench;
use crate::held::Held;
use crate::round::Round;
use answers::Answer;
use kinds::glyph::Glyph;
use model::faults::Fault;
use script::command::Command;
use std::alloc::{AllocError, Global};

impl Desk {
    // A session of n participants and so many cells, or nothing where one of them is out of range.
    pub fn new(heap: Global, n: usize, cells: usize) -> Result<Option<Desk>, AllocError>
        ensures { IfOk result (λ desk. Opens n cells (option_map sitting desk)) }
    {
        let Some(bench) = Bench::new(heap, n, cells)? else {
            return Ok(None);
        };
        let held = Held::nothing(heap, bench.size())?;
        Ok(Some(Desk {
            bench,
            held,
            buffer: [0; 88],
        }))
    }

    // Answers a command.
    pub fn run(&mut self, command: Command) -> Answer
        ensures { Runs (sitting self.old) command result (sitting self.new) }
    {
        told(self.obey(command))
    }

    // A restart of participant p. No line of a script spells it yet.
    pub fn restart(&mut self, p: usize) -> Answer
        ensures { RestartLine (sitting self.old) p result (sitting self.new) }
    {
        told(self.bench.restart(p).map(|()| Answer::Done))
    }

    // A match, since the commands are cases of an enum, each with numbers of its own.
    fn obey(&mut self, command: Command) -> Result<Answer, Fault>
        ensures { Runs (sitting self.old) command (told result) (sitting self.new) }
    {
        match command {
            Command::New { .. } => Ok(Answer::Bad),
            Command::Prepare { p, c, b } => self.prepare(p as usize, c as usize, b),
            Command::Accept { p, c, v } => self.accept(p as usize, c as usize, v),
            Command::Abandon { p, c } => Ok(self.abandon(p as usize, c as usize)),
            Command::Deliver { q, k } => self.deliver(q as usize, k as usize),
            Command::Read { p, c } => self.read(p as usize, c as usize),
        }
    }

    fn prepare(&mut self, p: usize, c: usize, b: u32) -> Result<Answer, Fault>
        ensures { PrepareLine (sitting self.old) p c b (told result) (sitting self.new) }
    {
        let (ballot, kept) = self.bench.prepare(p, c, b)?;
        self.held.hold(p, c, Some(ballot));
        Ok(Answer::Kept(kept))
    }

    fn accept(&mut self, p: usize, c: usize, v: u32) -> Result<Answer, Fault>
        ensures { AcceptLine (sitting self.old) p c v (told result) (sitting self.new) }
    {
        let Some(ballot) = self.held.ballot(p, c) else {
            return Ok(Answer::NoRound);
        };
        let glyph = Glyph::new(v)?;
        self.accept_with(Round::new(p, c, ballot), glyph)
    }

    // Where the accept is refused its round stays held.
    fn accept_with(&mut self, round: Round, glyph: Glyph) -> Result<Answer, Fault>
        ensures { AcceptsRound (sitting self.old) (turn round) glyph (told result) (sitting self.new) }
    {
        let (p, c) = (round.participant(), round.cell());
        let (carried, kept) = self.bench.accept(round, glyph)?;
        self.held.hold(p, c, None);
        Ok(Answer::Carried(carried.number(), kept))
    }

    fn abandon(&mut self, p: usize, c: usize) -> Answer
        ensures { AbandonLine (sitting self.old) p c result (sitting self.new) }
    {
        if self.held.abandon(p, c) {
            Answer::Done
        } else {
            Answer::NoRound
        }
    }

    fn deliver(&mut self, q: usize, k: usize) -> Result<Answer, Fault>
        ensures { DeliverLine (sitting self.old) q k (told result) (sitting self.new) }
    {
        let kept = self.bench.deliver(q, k, &mut self.buffer)?;
        Ok(Answer::Kept(kept))
    }

    fn read(&self, p: usize, c: usize) -> Result<Answer, Fault>
        ensures { ReadLine (sitting self.now) p c (told result) (sitting self.now) }
    {
        let shown = self.bench.read_out(p, c)?;
        Ok(match shown {
            Some((ballot, glyph)) => Answer::Chosen(ballot, glyph.number()),
            None => Answer::Open,
        })
    }
}

// A refusal is an answer too.
fn told(answer: Result<Answer, Fault>) -> Answer
    ensures { result ≡ told answer }
{
    answer.unwrap_or_else(Answer::from)
}
