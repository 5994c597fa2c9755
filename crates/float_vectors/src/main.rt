// Runs the float routines on every case of the file that the first argument names, and prints how many agree.
// A file with a fault in it is refused: one line on standard error, and none on standard output.
#![tactic(auto)]

mod answers;
mod calls;
mod case;
mod choices;
mod numbers;
mod rows;

fn main(rt: HostRuntime) {
    cases::run(&rt, "float_vectors", case::check_case);
}
