// Calls that make a formula or a plant: what is refused keeps the previous. Relies on state and printing.
ghost use Rattle.std.specs.Prelude.{◌≡◌, IfOk, string_bytes, codes};
ghost use Rattle.refusal.specs.Rows.{First};
ghost use Rattle.formula.specs.Words.{Granted as WordsGranted, Refused as WordsRefused};
ghost use Rattle.grammar.specs.Texts.{Granted as TextGranted, Refused as TextRefused};
ghost use Rattle.table.specs.Granted.{Granted as TableGranted};
ghost use Rattle.table.specs.Refused.{rows as table_rows};
ghost use Rattle.rule.specs.Read.{Granted as RuleGranted};
ghost use Rattle.rule.specs.Words.{rows as rule_rows};
ghost use Rattle.printing.specs.Printed.{accepted_line, table_line};
ghost use Rattle.replies.specs.Replies.{state_of, with_formula, with_plant, Makes, Made, FailedLine};

use crate::state::Console;
use formula::formula::Formula;
use kinds::AnyPlant;
use plant::Failure;
use printing::formulas::{accepted, table};
use rule::rule::RulePlant;
use std::alloc::{AllocError, Global};
use table::table::TablePlant;
use text::read::from_text;

// `ok`
fn granted(heap: Global) -> Result<String, AllocError>
    ensures { IfOk result (λ s. string_bytes s ≡ codes "ok") }
{
    String::from_str(heap, "ok")
}

// The line of a refusal; for want of memory there is none.
fn failed(heap: Global, failure: Failure) -> Result<String, AllocError>
    ensures { IfOk result (λ s. FailedLine failure (string_bytes s)) }
{
    match failure {
        Failure::Refused(refusal) => refusal.to_string(heap),
        Failure::OutOfMemory => Err(AllocError),
    }
}

impl Console {
    pub(crate) fn formula_call(&mut self, heap: Global, words: &[u32]) -> Result<String, AllocError>
        ensures { IfOk result (λ s. Makes (WordsGranted words.now) (WordsRefused words.now) accepted_line with_formula (state_of self.old) (string_bytes s) (state_of self.new)) }
    {
        match Formula::from_words(words) {
            Ok(formula) => {
                let answer = accepted(heap, &formula);
                self.formula = Some(formula);
                answer
            }
            Err(refusal) => refusal.to_string(heap),
        }
    }

    pub(crate) fn text_call(&mut self, heap: Global, text: &[u8]) -> Result<String, AllocError>
        ensures { IfOk result (λ s. Makes (TextGranted text.now) (TextRefused text.now) table_line with_formula (state_of self.old) (string_bytes s) (state_of self.new)) }
    {
        match from_text(text) {
            Ok(formula) => {
                let answer = table(heap, &formula);
                self.formula = Some(formula);
                answer
            }
            Err(refusal) => refusal.to_string(heap),
        }
    }

    // A plant that is made is kept; what is refused keeps the previous.
    fn plant_made(
        &mut self,
        heap: Global,
        made: Result<AnyPlant, Failure>,
    ) -> Result<String, AllocError>
        ensures { IfOk result (λ s. Made made (state_of self.old) (string_bytes s) (state_of self.new)) }
    {
        match made {
            Ok(plant) => {
                self.plant = Some(plant);
                granted(heap)
            }
            Err(failure) => failed(heap, failure),
        }
    }

    pub(crate) fn table_call(&mut self, heap: Global, words: &[u32]) -> Result<String, AllocError>
        ensures { IfOk result (λ s. Makes (TableGranted words.now) (First (table_rows words.now)) (λ _. codes "ok") with_plant (state_of self.old) (string_bytes s) (state_of self.new)) }
    {
        let made = TablePlant::from_words(heap, words);
        self.plant_made(heap, made.map(AnyPlant::Table))
    }

    pub(crate) fn rule_call(&mut self, heap: Global, words: &[u32]) -> Result<String, AllocError>
        ensures { IfOk result (λ s. Makes (RuleGranted words.now) (First (rule_rows words.now)) (λ _. codes "ok") with_plant (state_of self.old) (string_bytes s) (state_of self.new)) }
    {
        let made = RulePlant::from_words(heap, words);
        self.plant_made(heap, made.map(AnyPlant::Rule))
    }
}
