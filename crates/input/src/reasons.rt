// Why a call on a file failed, in words.
ghost use Rattle.std.specs.Prelude.{IfOk, string_bytes};
ghost use Rattle.input.specs.Reasons.{IsBeforeNumber, TellsNoNumber};

use std::alloc::{AllocError, Global};
use std::io;

// The words alone, as `No such file or directory`: the number that std's text ends in, as ` (os error 2)`, is left off.
pub fn reason(alloc: Global, error: io::Error) -> Result<String, AllocError>
    ensures { IfOk result (λ words. TellsNoNumber (string_bytes words)) }
{
    let said = format!(in alloc; "{error}")?;
    String::from_str(alloc, without_number(said.as_str()))
}

fn without_number(said: &str) -> &str
    ensures front { IsBeforeNumber said.now result.now }
    ensures first { TellsNoNumber result.now }
{
    match said.split_once(" (os error ") {
        Some((words, _)) => words,
        None => said,
    }
}
