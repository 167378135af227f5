// Rule plants from words, or the refusal of the first row that applies. All is checked before memory is asked for.
// Relies on rule and sections.
ghost use Rattle.std.specs.Prelude.{◌≡◌, ℕ, ◌≤◌, map, length, take, IfOk, Err, MatchResult};
ghost use Rattle.std.specs.List.{All};
ghost use Rattle.refusal.specs.Rows.{First};
ghost use Rattle.refusal.specs.declared.Refusal.{Refusal as Given};
ghost use Rattle.plant.specs.Making.{Failed};
ghost use Rattle.plant.specs.declared.Failure.TheVariants.{Refused};
ghost use Rattle.guarded.specs.Made.{model_of};
ghost use Rattle.rule.specs.Words.{Foreign, rows};
ghost use Rattle.rule.specs.Read.{Ruled, Reads, Granted, value_in};

use crate::rule::RulePlant;
use crate::sections::{ANY, Sections};
use guarded::{Parts, Rule};
use plant::Failure;
use refusal::{Cause, Refusal};
use std::alloc::{AllocError, Global};

// The sizes that the words are.
fn sizes(heap: Global, words: &[u32]) -> Result<Vec<u8>, AllocError>
    requires { All (λ size. size ≤ 16) words.now }
    ensures { IfOk result (λ v. v.items ≡ words.now) }
{
    words.iter().map(|size| *size as u8).collect(heap)
}

// The value that a word names.
fn value(word: u32) -> Option<u8>
    requires { word ≤ 255 }
    ensures { result ≡ value_in word }
{
    (word != ANY).then_some(word as u8)
}

// The values that the words of a row name, one for each variable.
fn values(words: &[u32]) -> [Option<u8>; 8]
    requires small { All (λ word. word ≤ 255) words.now }
    requires few { length words.now ≤ 8 }
    ensures { take (length words.now) result ≡ map value_in words.now }
{
    let mut values = [None; 8];
    for (j, word) in words.iter().enumerate() {
        values[j] = value(*word);
    }
    values
}

impl Sections<'_> {
    // The rules that stand in the words.
    fn rules(&self, heap: Global) -> Result<Vec<Rule>, AllocError>
        requires { (i : ℕ) → Foreign self.now.words.now i → ⊥ }
        ensures { IfOk result (λ v. Ruled self.now.words.now v.items) }
    {
        let width = self.sizes.len();
        let mut rules = Vec::with_capacity(heap, self.words[1] as usize)?;
        for (needs, sets) in self.needs.chunks(width).zip(self.sets.chunks(width)) {
            rules.push(Rule {
                needs: values(needs),
                sets: values(sets),
            })?;
        }
        Ok(rules)
    }

    // What stands in the words.
    fn read(&self, heap: Global) -> Result<Parts, AllocError>
        requires { (i : ℕ) → Foreign self.now.words.now i → ⊥ }
        ensures { IfOk result (λ p. Reads self.now.words.now p) }
    {
        let sizes = sizes(heap, self.sizes)?;
        let rules = self.rules(heap)?;
        Ok(Parts { sizes, rules })
    }
}

// The parts of words that keep every rule, or the first rule that they break.
fn checked(words: &[u32]) -> Result<Sections<'_>, Refusal>
    ensures { MatchResult result (λ t. ((i : ℕ) → Foreign words.now i → ⊥) × (t.words.now ≡ words.now)) (λ e. First (rows words.now) e) }
{
    let sections = Sections::cut(words).ok_or(Cause::RuleSize.at(0))?;
    match sections.foreign() {
        Some(place) => Err(Cause::RuleValue.at(place)),
        None => Ok(sections),
    }
}

impl RulePlant {
    // The plant that the words mean, or the refusal of the first row that applies, or want of memory where none does.
    pub fn from_words(heap: Global, words: &[u32]) -> Result<RulePlant, Failure>
        ensures answer { MatchResult result (λ p. Granted words.now (model_of p.parts)) (λ e. Failed (rows words.now) e) }
        ensures only { (e : Given) → First (rows words.now) e → result ≡ Err (Refused e) }
    {
        let sections = checked(words)?;
        let parts = sections.read(heap)?;
        Ok(RulePlant { parts })
    }
}
