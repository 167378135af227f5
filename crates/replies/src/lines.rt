// How the lines of a script are answered. Relies on making, asking and script.
ghost use Rattle.std.specs.Prelude.{◌≡◌, ℕ, List, IfOk, OnOk, None as Nothing, string_bytes};
ghost use Rattle.std.specs.Io.KnownBytes.{Appends};
ghost use Rattle.script.specs.Says.{meaning, list as list_said, alone as alone_call};
ghost use Rattle.replies.specs.Replies.{state_of, Answers, Replies, Answered};

use crate::help::help;
use crate::state::Console;
use printing::lines::{ended, what};
use script::calls::{AloneWord, Call, Line, ListWord, Word};
use script::lines::first_line;
use script::reader::read;
use std::alloc::{AllocError, Global};
use std::io;
use std::io::Write;

impl Console {
    pub fn new() -> Console
        ensures { state_of result ≡ record { formula = Nothing; plant = Nothing } }
    {
        Console {
            formula: None,
            plant: None,
        }
    }

    fn list_call(
        &mut self,
        heap: Global,
        word: ListWord,
        words: &[u32],
    ) -> Result<String, AllocError>
        ensures { IfOk result (λ s. Answers (list_said word words.now) (state_of self.old) (string_bytes s) (state_of self.new)) }
    {
        match word {
            ListWord::Formula => self.formula_call(heap, words),
            ListWord::Table => self.table_call(heap, words),
            ListWord::Rule => self.rule_call(heap, words),
        }
    }

    // The answer to a call.
    fn answer(&mut self, heap: Global, words: &[Word], call: Call) -> Result<String, AllocError>
        ensures { IfOk result (λ s. Answers (meaning call) (state_of self.old) (string_bytes s) (state_of self.new)) }
    {
        match call {
            Call::List(word, words) => self.list_call(heap, word, words.as_slice()),
            Call::Text(text) => self.text_call(heap, text.as_slice()),
            Call::Alone(AloneWord::Ask) => self.ask(heap),
            Call::Alone(AloneWord::Help) => help(heap, words),
            Call::One(word, n) => self.ask_one(heap, word, n),
            Call::Arc(state, index) => self.ask_arc(heap, state, index),
        }
    }

    // The bytes that a line is answered with by a console that knows some words, each line of them ended: none where it
    // is skipped.
    pub fn answer_line(
        &mut self,
        heap: Global,
        words: &[Word],
        line: &[u8],
    ) -> Result<Vec<u8>, AllocError>
        ensures { IfOk result (λ v. Replies words.now line.now (state_of self.old) v.items (state_of self.new)) }
    {
        match read(heap, words, line)? {
            Line::Call(call) => {
                let answer = self.answer(heap, words, call)?;
                ended(answer.into_bytes())
            }
            Line::Skip => Ok(Vec::new(heap)),
            Line::What => {
                let thrown = what(heap, line)?;
                ended(thrown)
            }
        }
    }
}

// Answers the lines of a script in their order.
pub fn run<W: Write>(heap: Global, words: &[Word], script: &[u8], out: &mut W) -> io::Result<()>
    ensures { OnOk result ((bytes : List ℕ) × Answered words.now script.now (record { formula = Nothing; plant = Nothing }) bytes × Appends (W.Write.contents out.old) (W.Write.contents out.new) bytes) }
{
    let mut console = Console::new();
    let mut rest = script;
    while let Some((line, after)) = first_line(rest) {
        let answer = console.answer_line(heap, words, line)?;
        out.write_all(answer.as_slice())?;
        rest = after;
    }
    Ok(())
}
