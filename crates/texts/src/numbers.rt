// One number or one mark of the text, after the blanks and line ends before it; and how often what follows is repeated.
ghost use Rattle.std.specs.Prelude.{◌≤◌, IfOk};

use crate::fault::{Fault, Stop};
use crate::runs::Run;
use crate::text::Text;

// The number that the digits say, if a u32 holds it. The low four bits of a digit are its value. The library's `parse` takes a sign too, and text alone.
fn decimal(digits: &[u8]) -> Option<u32> {
    digits.iter().try_fold(0u32, |value, digit| {
        value.checked_mul(10)?.checked_add(u32::from(*digit & 15))
    })
}

impl Text<'_> {
    ghost use Rattle.texts.specs.Reading.{Onward};

    pub fn number(&mut self) -> Result<u32, Stop>
        ensures { Onward self.old result self.new }
    {
        let at = self.start();
        let digits = self.take(Run::Digits);
        if digits.is_empty() && self.ahead().is_none() {
            return Err(self.stop(Fault::Early));
        }
        if digits.is_empty() || !self.is_end() {
            return Err(self.stop(Fault::Number));
        }
        let fault = Fault::Large;
        decimal(digits).ok_or(Stop { at, fault })
    }

    // A number up to the last; `fault` says what is wrong with one above it.
    fn number_to(&mut self, last: u32, fault: Fault) -> Result<u32, Stop>
        ensures onward { Onward self.old result self.new }
        ensures bounded { IfOk result (λ n. n ≤ last) }
    {
        let at = self.start();
        let number = self.number()?;
        if number > last {
            return Err(Stop { at, fault });
        }
        Ok(number)
    }

    pub fn mark(&mut self) -> Result<bool, Stop>
        ensures { Onward self.old result self.new }
    {
        let number = self.number_to(1, Fault::Mark)?;
        Ok(number == 1)
    }

    // The number of a call, of which the last is given.
    pub fn call(&mut self, last: u32) -> Result<u32, Stop>
        ensures onward { Onward self.old result self.new }
        ensures named { IfOk result (λ n. n ≤ last) }
    {
        self.number_to(last, Fault::Call)
    }

    // A number with an x after it, as in 3x, says how often what follows stands there; without one it is once.
    pub fn times(&mut self) -> Result<u32, Stop>
        ensures onward { Onward self.old result self.new }
        ensures some { IfOk result (λ n. 1 ≤ n) }
    {
        let at = self.start();
        let digits = self.take(Run::Digits);
        let Some(b'x') = self.ahead() else {
            self.at = at;
            return Ok(1);
        };
        self.at += 1;
        match decimal(digits) {
            Some(count) if count > 0 => Ok(count),
            _ => Err(Stop {
                at,
                fault: Fault::Times,
            }),
        }
    }
}
