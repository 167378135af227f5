// Formulas from text, or the refusal of the first rule that it breaks.
ghost use Rattle.std.specs.Prelude.{◌≡◌, ℕ, [], ◌∷◌, Err, MatchResult};
ghost use Rattle.formula.specs.View.{entries_of};
ghost use Rattle.grammar.specs.Machine.{phrase, outcome, not};
ghost use Rattle.grammar.specs.Phrases.{OneReading};
ghost use Rattle.grammar.specs.Texts.{Granted, Refused, OutAt};
ghost use Rattle.refusal.specs.Causes.{Gives};
ghost use Rattle.refusal.specs.declared.Layer.TheVariants.{Text};
ghost use Rattle.refusal.specs.declared.Refusal.{Refusal as Given};
ghost use Rattle.text.specs.Spelled.{left, Written, Tells};

use crate::reader::Reader;
use draft::draft::Draft;
use formula::formula::Formula;
use formula::words::weigh;
use grammar::Fault;
use refusal::{Cause, Refusal};

// The refusal for a fault in a text of `len` bytes. No `From`: where a text ends is not in the fault.
fn refusal_of(fault: Fault, len: usize) -> Refusal
    ensures { Tells result fault len }
{
    match fault {
        Fault::Byte(i) => Cause::TextByte.at(i),
        Fault::End => Cause::TextEnd.at(len),
        Fault::Number(i) => Cause::TextNumber.at(i),
    }
}

impl Reader<'_> {
    // One phrase, and nothing behind it.
    fn whole(&mut self, out: &mut Draft) -> Result<(), Fault>
        ensures { MatchResult result (λ _. Written self.old self.new out.old out.new × (left self.new ≡ [])) (λ e. outcome (phrase ∷ []) self.old.at (left self.old) ≡ not e) }
    {
        self.phrase(out)?;
        if self.at < self.text.len() {
            return Err(Fault::Byte(self.at));
        }
        Ok(())
    }
}

// Which formula the text is: granted, its table is what the one phrase that it is stands for; else the first rule that it breaks.
pub fn from_text(text: &[u8]) -> Result<Formula, Refusal>
    ensures answer { MatchResult result (λ f. Granted text.now (entries_of f)) (λ e. Refused text.now e) }
    ensures only { (e : Given) → Refused text.now e → result ≡ Err e }
    ensures reading { OneReading }
    ensures number { (e : Given) (i : ℕ) → result ≡ Err e → Gives e 24 Text i → OutAt text.now i }
{
    if text.is_empty() || text.len() > 256 {
        return Err(Cause::TextLength.at(0));
    }
    let mut reader = Reader { text, at: 0 };
    let mut out = Draft::new();
    reader
        .whole(&mut out)
        .map_err(|fault| refusal_of(fault, text.len()))?;
    let too_large = Cause::TextTable.at(0);
    let len = out.count.ok_or(too_large)?;
    if weigh(&out.entries[..len]) > 10 {
        return Err(too_large);
    }
    Ok(Formula {
        entries: out.entries,
        len,
    })
}
