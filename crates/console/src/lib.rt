// The console: a session from standard input to standard output, one answer for each line.
#![tactic(auto)]

ghost use Rattle.std.specs.Prelude.{◌≡◌, ℕ, [], Some, OnOk};
ghost use Rattle.console.specs.Left.{left};
ghost use Rattle.script.specs.Collected.{collected};

use answers::Answer;
use register::session::Session;
use script::lines::Lines;
use std::alloc::Global;
use std::io::{BufWriter, Read, Stdout, Write};

// Runs a session. Reads the input in blocks, so that a long script costs few system calls and no memory. (The loop counts, since one without an end would have to be allowed to wait.)
pub fn run(rt: &HostRuntime) -> anyhow::Result<()> {
    let heap = rt.alloc();
    let mut input = rt.stdin();
    let mut out = BufWriter::new(heap, rt.stdout())?;
    let mut session = Session::new();
    let mut lines = Lines::new();
    let mut block = [0u8; 65536];
    for _ in 0..u64::MAX {
        let n = input.read(&mut block)?;
        if n == 0 {
            break;
        }
        take_block(heap, &mut session, &mut lines, &block[0..n], &mut out)?;
    }
    if lines.pending() {
        answer_line(heap, &mut session, &mut lines, &mut out)?;
    }
    out.flush()?;
    Ok(())
}

// Answers each line that ends in the block, and keeps the rest for the next one.
fn take_block<W: Write>(
    heap: Global,
    session: &mut Session,
    lines: &mut Lines,
    block: &[u8],
    out: &mut W,
) -> anyhow::Result<()>
    ensures { OnOk result (collected lines.new ≡ left (collected lines.old) block.now) }
{
    let mut rest = block;
    while let Some(next) = lines.take(rest) {
        answer_line(heap, session, lines, out)?;
        rest = next;
    }
    Ok(())
}

// Answers the line that was collected, and makes room for the next one.
fn answer_line<W: Write>(
    heap: Global,
    session: &mut Session,
    lines: &mut Lines,
    out: &mut W,
) -> anyhow::Result<()>
    ensures { OnOk result (collected lines.new ≡ Some []) }
{
    let answer = match lines.line() {
        Some(line) => session.answer(heap, line)?,
        None => Answer::Bad,
    };
    lines.clear();
    writeln!(out, "{answer}")?;
    Ok(())
}
