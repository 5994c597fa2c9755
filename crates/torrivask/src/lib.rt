// The C face (include/torrivask.h): each function hands numbers and slices to a proved call and tells what it told. It
// answers 0, or the number of a refusal; only then is `place` written, and nothing else that was lent.
#![tactic(auto)]

mod board_call;
mod fill_call;
mod float_calls;
mod refused;
mod sheet_calls;
mod words;
