// The console: reads a script of calls on formulas from standard input, and prints an answer for each.
// Relies on script and replies.
#![tactic(auto)]

ghost use Rattle.std.specs.Prelude.{◌≡◌, ℕ, List, OnOk, None as Nothing};
ghost use Rattle.std.specs.Io.KnownBytes.{Appends};
ghost use Rattle.replies.specs.Replies.{Answered};
ghost use Rattle.console.specs.Known.{every};

mod words;

use replies::lines;
use std::alloc::Global;
use std::io;
use std::io::{BufWriter, Read, Write};

// Answers the lines of a script in their order. That these are the words which the console knows is promised here.
fn run<W: Write>(heap: Global, script: &[u8], out: &mut W) -> io::Result<()>
    ensures { OnOk result ((bytes : List ℕ) × Answered every script.now (record { formula = Nothing; plant = Nothing }) bytes × Appends (W.Write.contents out.old) (W.Write.contents out.new) bytes) }
{
    lines::run(heap, &words::all(), script, out)
}

// The same in each program: one function of `replies` over the program's handle would have nothing to promise.
fn main(rt: HostRuntime) -> io::Result<()> {
    let heap = rt.alloc();
    let mut script = Vec::new(heap);
    rt.stdin().read_to_end(&mut script)?;
    let mut out = BufWriter::new(heap, rt.stdout())?;
    run(heap, script.as_slice(), &mut out)?;
    out.flush()
}
