// A list of the text: its length, then so many entries, into memory that the caller lends.
ghost use Rattle.std.specs.Prelude.{◌≤◌, length, IfOk};

use crate::fault::{Fault, Stop};
use crate::text::Text;

impl<'a> Text<'a> {
    ghost use Rattle.texts.specs.Reading.{Onward, AllOnward};

    // The length of a list, of whose entries so many are kept.
    pub(crate) fn length(&mut self, most: usize) -> Result<usize, Stop>
        ensures onward { Onward self.old result self.new }
        ensures bounded { IfOk result (λ n. n ≤ most) }
    {
        let at = self.start();
        let count = self.number()? as usize;
        if count > most {
            let fault = Fault::List(most);
            return Err(Stop { at, fault });
        }
        Ok(count)
    }

    // A list, each entry of which `entry` reads.
    pub fn list<'b, T: Drop, F: Fn(&mut Text<'a>) -> Result<T, Stop>>(
        &mut self,
        into: &'b mut [T],
        entry: F,
    ) -> Result<&'b mut [T], Stop>
        requires calls { F.IsAlwaysCallable entry }
        requires entries { AllOnward (F.post entry) }
        ensures onward { Onward self.old result self.new }
        ensures bounded { IfOk result (λ xs. length xs.now ≤ length into.old) }
    {
        let count = self.length(into.len())?;
        let list = &mut into[..count];
        for place in list.iter_mut() {
            *place = entry(self)?;
        }
        Ok(list)
    }

    // So many numbers.
    pub fn row<const N: usize>(&mut self) -> Result<[u32; N], Stop>
        ensures { Onward self.old result self.new }
    {
        let mut row = [0; N];
        for place in row.iter_mut() {
            *place = self.number()?;
        }
        Ok(row)
    }

    // A list of rows; a row may be repeated, as in 3x5 9.
    pub fn rows<'b, const N: usize>(
        &mut self,
        into: &'b mut [[u32; N]],
    ) -> Result<&'b mut [[u32; N]], Stop>
        ensures onward { Onward self.old result self.new }
        ensures bounded { IfOk result (λ xs. length xs.now ≤ length into.old) }
    {
        let count = self.length(into.len())?;
        let list = &mut into[..count];
        let mut row = [0; N];
        let mut left = 0;
        for place in list.iter_mut() {
            if left == 0 {
                left = self.times()?;
                row = self.row()?;
            }
            left -= 1;
            *place = row;
        }
        if left > 0 {
            return Err(self.stop(Fault::Over));
        }
        Ok(list)
    }
}
