// A list of bytes in hex: its length, then groups of bytes, two digits each; a group may be repeated, as in 3x00FF.
ghost use Rattle.std.specs.Prelude.{◌≤◌, ◌<◌, length, IfOk, IfSome};

use crate::fault::{Fault, Stop};
use crate::text::Text;

// A digit is 0 to 9 or a capital: the library's `to_digit` takes small letters too.
fn digit(byte: u8) -> Option<u8>
    ensures { IfSome result (λ n. n < 16) }
{
    match byte {
        b'0'..=b'9' => Some(byte - b'0'),
        b'A'..=b'F' => Some(byte - b'A' + 10),
        _ => None,
    }
}

impl Text<'_> {
    ghost use Rattle.texts.specs.Reading.{Onward};

    fn byte(&mut self) -> Result<u8, Stop>
        ensures { Onward self.old result self.new }
    {
        let rest = &self.bytes[self.at..];
        if rest.len() < 2 {
            return Err(self.stop(Fault::Early));
        }
        match (digit(rest[0]), digit(rest[1])) {
            (Some(high), Some(low)) => {
                self.at += 2;
                Ok(high * 16 + low)
            }
            _ => Err(self.stop(Fault::Byte)),
        }
    }

    // The next group starts again where it is repeated.
    pub fn hex<'b>(&mut self, into: &'b mut [u8]) -> Result<&'b mut [u8], Stop>
        ensures onward { Onward self.old result self.new }
        ensures bounded { IfOk result (λ xs. length xs.now ≤ length into.old) }
    {
        let count = self.length(into.len())?;
        let list = &mut into[..count];
        let mut start = self.at;
        let mut left = 0;
        for place in list.iter_mut() {
            if self.is_end() && left > 0 {
                left -= 1;
                self.at = start;
            } else if self.is_end() {
                left = self.times()? - 1;
                start = self.at;
            }
            *place = self.byte()?;
        }
        if left > 0 || !self.is_end() {
            return Err(self.stop(Fault::Over));
        }
        Ok(list)
    }
}
