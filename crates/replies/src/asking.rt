// Calls that ask about the last plant. Relies on state and printing.
ghost use Rattle.std.specs.Prelude.{◌≡◌, length, IfOk, string_bytes, codes, decimal};
ghost use Rattle.plant.specs.Model.{initial_at, arc_at};
ghost use Rattle.meaning.specs.Printed.{arc_line};
ghost use Rattle.printing.specs.Printed.{asked_line};
ghost use Rattle.script.specs.Says.{one as one_call};
ghost use Rattle.replies.specs.Replies.{state_of, Tells, Answers};

use crate::state::Console;
use plant::Plant;
use printing::plants::asked;
use script::calls::OneWord;
use std::alloc::{AllocError, Global};

// `no plant`
fn none(heap: Global) -> Result<String, AllocError>
    ensures { IfOk result (λ s. string_bytes s ≡ codes "no plant") }
{
    String::from_str(heap, "no plant")
}

impl Console {
    pub(crate) fn ask(&self, heap: Global) -> Result<String, AllocError>
        ensures { IfOk result (λ s. Tells asked_line (state_of self.now).plant (string_bytes s)) }
    {
        match &self.plant {
            Some(plant) => asked(heap, plant),
            None => none(heap),
        }
    }

    // A question of one number.
    pub(crate) fn ask_one(&self, heap: Global, word: OneWord, n: u32) -> Result<String, AllocError>
        ensures { IfOk result (λ s. Answers (one_call word n) (state_of self.now) (string_bytes s) (state_of self.now)) }
    {
        let Some(plant) = &self.plant else {
            return none(heap);
        };
        let answer = match word {
            OneWord::Initial => plant.initial(n as usize),
            OneWord::Facts => plant.facts(n),
            OneWord::Arcs => u32::from(plant.arc_count(n)),
        };
        format!(in heap; "{answer}")
    }

    pub(crate) fn ask_arc(&self, heap: Global, state: u32, index: u32) -> Result<String, AllocError>
        ensures { IfOk result (λ s. Tells (λ m. arc_line (arc_at m state index)) (state_of self.now).plant (string_bytes s)) }
    {
        match &self.plant {
            Some(plant) => plant.arc(state, index as usize).to_string(heap),
            None => none(heap),
        }
    }
}
