// How many cases of a text agree.
ghost use Rattle.std.specs.Prelude.{◌<◌, ◌≤◌, length, IfOk, IfSome};
ghost use Rattle.texts.specs.Reading.{Onward, AllOnward};

use crate::tally::Tally;
use texts::{Fault, Run, Stop, Text};

// On behind the # of the next case and its name, the rest of the line, which is handed on; nothing at the end of the text.
fn next_case<'a>(text: &mut Text<'a>) -> Result<Option<&'a [u8]>, Stop>
    ensures onward { Onward text.old result text.new }
    ensures further { IfOk result (λ case. IfSome case (λ name. (text.old.at < text.new.at) × (text.old.at < 18446744073709551615))) }
{
    text.start();
    match text.ahead() {
        None => Ok(None),
        Some(b'#') => {
            text.at += 1;
            Ok(Some(text.take(Run::Line)))
        }
        Some(_) => Err(text.stop(Fault::Case)),
    }
}

// `check` reads a case, from behind its name, and says whether it agrees. Each case has a byte of the text at least, its #.
pub fn count<'a, F: Fn(&mut Text<'a>) -> Result<bool, Stop>>(
    bytes: &'a [u8],
    check: F,
) -> Result<Tally<'a>, Stop>
    requires calls { F.IsAlwaysCallable check }
    requires cases { AllOnward (F.post check) }
    ensures { IfOk result (λ tally. (0 < tally.cases) × (tally.cases ≤ length bytes.now)) }
{
    let mut text = Text::new(bytes);
    let mut tally = Tally::new();
    while let Some(name) = next_case(&mut text)? {
        let agrees = check(&mut text)?;
        tally = tally.counted(agrees, name);
    }
    if tally.cases == 0 {
        return Err(text.stop(Fault::NoCase));
    }
    Ok(tally)
}
