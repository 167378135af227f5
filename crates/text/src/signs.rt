// Characters, signs and numbers of a text.
ghost use Rattle.std.specs.Prelude.{◌≡◌, ◌<◌, [], ◌∷◌, MatchOption, MatchResult};
ghost use Rattle.grammar.specs.Machine.{op, num, lit};
ghost use Rattle.grammar.specs.Phrases.{digits, sign, strict};
ghost use Rattle.text.specs.Spelled.{left, Char, Ended, Took, Failed, NoDigit, Digit};

use crate::reader::Reader;
use grammar::{Fault, Joint, Name};

// How many facts or events there are.
fn limit(name: Name) -> u32
    ensures { result ≡ strict name }
{
    match name {
        Name::Fact => 32,
        Name::Enabled | Name::Taken => 64,
    }
}

impl Reader<'_> {
    // One character: a byte past ASCII stands for itself, and no phrase has one.
    pub(crate) fn next(&mut self) -> Result<char, Fault>
        ensures { MatchResult result (λ c. Char self.old self.new c) (λ e. Ended self.old e) }
    {
        let b = *self.text.get(self.at).ok_or(Fault::End)?;
        self.at += 1;
        Ok(char::from(b))
    }

    pub(crate) fn expect(&mut self, want: char) -> Result<(), Fault>
        ensures { MatchResult result (λ _. Took (lit want ∷ []) self.old self.new (want ∷ [])) (λ e. Failed (lit want ∷ []) self.old e) }
    {
        let place = self.at;
        let c = self.next()?;
        if c == want {
            Ok(())
        } else {
            Err(Fault::Byte(place))
        }
    }

    // The sign between two phrases.
    pub(crate) fn joint(&mut self) -> Result<Joint, Fault>
        ensures { MatchResult result (λ j. Took (op ∷ []) self.old self.new (sign j ∷ [])) (λ e. Failed (op ∷ []) self.old e) }
    {
        let place = self.at;
        match self.next()? {
            '|' => Ok(Joint::Or),
            '&' => Ok(Joint::And),
            '>' => Ok(Joint::Implies),
            'U' => Ok(Joint::Until),
            _ => Err(Fault::Byte(place)),
        }
    }

    // The digit that comes next, if one does; it is not read yet.
    fn digit(&self) -> Option<u32>
        ensures { MatchOption result (NoDigit (left self.now)) (λ d. Digit (left self.now) d) }
    {
        char::from(*self.text.get(self.at)?).to_digit(10)
    }

    // `0`, or a digit 1 to 9 with at most one digit after it.
    pub(crate) fn number(&mut self, name: Name) -> Result<u8, Fault>
        ensures { MatchResult result (λ n. (n < strict name) × Took (num name ∷ []) self.old self.new (digits n)) (λ e. Failed (num name ∷ []) self.old e) }
    {
        let place = self.at;
        let tens = self.next()?.to_digit(10).ok_or(Fault::Byte(place))?;
        if tens == 0 {
            return Ok(0);
        }
        let Some(ones) = self.digit() else {
            return Ok(tens as u8);
        };
        let n = tens * 10 + ones;
        if n >= limit(name) {
            return Err(Fault::Number(place));
        }
        self.at += 1;
        Ok(n as u8)
    }
}
