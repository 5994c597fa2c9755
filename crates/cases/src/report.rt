// What the program prints: the counts on standard output, or the fault on standard error. What cannot be written is not told. No `Display` of a
// `Tally`: the name of its first case is bytes, which need not be text.
ghost use Rattle.std.specs.Prelude.{◌≡◌};
ghost use Rattle.cases.specs.Clean.{is_clean};

use crate::tally::{First, Tally};
use texts::Stop;

fn print_first(rt: &HostRuntime, first: First) {
    let number = first.number;
    let _ = print!(rt; "first to differ: case {number},");
    let _ = rt.stdout().write_all(first.name);
    let _ = println!(rt; "");
}

fn print_tally(rt: &HostRuntime, tally: Tally) {
    let cases = tally.cases;
    let differ = tally.differ;
    let agree = cases - differ;
    let _ = println!(rt; "cases {cases} agree {agree} differ {differ}");
    if let Some(first) = tally.first {
        print_first(rt, first);
    }
}

pub(crate) fn print_stop(rt: &HostRuntime, program: &[u8], stop: Stop) {
    let _ = rt.stderr().write_all(program);
    let _ = eprintln!(rt; ": {stop}");
}

// The counts, or the fault. Answers whether the run was clean.
pub fn print(rt: &HostRuntime, program: &[u8], counted: Result<Tally, Stop>) -> bool
    ensures { result ≡ is_clean counted.entry }
{
    match counted {
        Ok(tally) => {
            print_tally(rt, tally);
            tally.cases > 0 && tally.differ == 0
        }
        Err(stop) => {
            print_stop(rt, program, stop);
            false
        }
    }
}
