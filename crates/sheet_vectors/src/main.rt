// Runs the sheet's calls on every case of the file that the first argument names, and prints how many agree.
// A file with a fault in it is refused: one line on standard error, and none on standard output.
#![tactic(auto)]

mod answers;
mod case;
mod compare;
mod space;

fn main(rt: HostRuntime) {
    cases::run(&rt, "sheet_vectors", case::check_case);
}
