// A session over a script: glyph numbers, majority, a line and a page store.
ghost use Rattle.std.specs.Prelude.{◌≡◌, None, MatchResult};
ghost use Rattle.script.specs.Commands.{command_of};
ghost use Rattle.script.specs.Pieces.{pieces};
ghost use Rattle.register.specs.Sessions.{seat, Begins, Obeys, Says};

use crate::desk::Desk;
use answers::Answer;
use model::faults::Fault;
use script::command::Command;
use std::alloc::{AllocError, Global};

// A session waits for a `new` line that is taken, and then runs the register that it names.
#[derive(Drop)]
pub struct Session {
    pub desk: Option<Desk>,
}

impl Session {
    // A session that waits.
    pub fn new() -> Session
        ensures { seat result ≡ None }
    {
        Session { desk: None }
    }

    // Answers one line. Only making a register can fail for want of memory.
    pub fn answer(&mut self, heap: Global, line: &[u8]) -> Result<Answer, AllocError>
        ensures { MatchResult result (λ a. Says (seat self.old) (command_of (pieces line.now)) a (seat self.new)) (λ _. self.new ≡ self.old) }
    {
        match Command::read(line) {
            None => Ok(Answer::Bad),
            Some(command) => self.run(heap, command),
        }
    }

    fn run(&mut self, heap: Global, command: Command) -> Result<Answer, AllocError>
        ensures { MatchResult result (λ a. Obeys (seat self.old) command a (seat self.new)) (λ _. self.new ≡ self.old) }
    {
        match &mut self.desk {
            Some(desk) => Ok(desk.run(command)),
            None => self.begin(heap, command),
        }
    }

    // Only `new` has a place before the session runs.
    fn begin(&mut self, heap: Global, command: Command) -> Result<Answer, AllocError>
        requires { seat self.old ≡ None }
        ensures { MatchResult result (λ a. Begins command a (seat self.new)) (λ _. self.new ≡ self.old) }
    {
        let Command::New { n, cells } = command else {
            return Ok(Answer::Bad);
        };
        self.desk = Desk::new(heap, n as usize, cells as usize)?;
        Ok(if self.desk.is_some() {
            Answer::Done
        } else {
            Answer::No(Fault::Unfit)
        })
    }
}
