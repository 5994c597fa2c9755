// A whole run of a program: the file of cases is read, its cases are counted, and how many agree is printed.
ghost use Rattle.texts.specs.Reading.{AllOnward};

use crate::file::{buffer, load};
use crate::report::print;
use crate::walk::count;
use texts::{Stop, Text};

// `check` reads a case and says whether it agrees.
pub fn run<F: Fn(&mut Text) -> Result<bool, Stop>>(rt: &HostRuntime, program: &str, check: F)
    requires calls { F.IsAlwaysCallable check }
    requires cases { AllOnward (F.post check) }
{
    let program = program.as_bytes();
    let mut memory = buffer();
    if let Some(length) = load(rt, program, &mut memory) {
        print(rt, program, count(&memory[..length], check));
    }
}
