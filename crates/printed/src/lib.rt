// What the reader prints, made in lent bytes before any of it is written out (specs/Rule.antt is the rule, docs/PROMISES.md the promise in
// words).
#![tactic(auto)]

mod answer;
mod message;
mod put;

ghost use Rattle.std.specs.Prelude.{◌≡◌};
ghost use Rattle.printed.specs.Rule.{print_call};
ghost use Rattle.printed.specs.Answer.{print_leaves};

use answer::put_answer;
use board::board;
use kinds::Track;
pub use message::{MOST_MESSAGE, print_message};

// The first line of a board, and the line of a track, at their longest.
const MOST_BOARD_LINE: usize = 83;

const MOST_TRACK_LINE: usize = 63;

// As many bytes as any text takes, of a board of 256 tracks too.
pub const MOST_TEXT: usize = MOST_BOARD_LINE + MOST_TRACK_LINE * Track::MOST;

// Sizes a sheet and puts what is printed of it into lent bytes: the text is the first so many, and those behind it keep what they hold.
// Where fewer are lent than such a text may take, there is no text, and all of them keep what they hold.
pub fn print_sheet(bytes: &[u8], into: &mut [u8]) -> Option<usize>
    ensures { print_leaves result into.new ≡ print_call bytes.now into.old }
{
    if into.len() < MOST_TEXT {
        return None;
    }
    // Fixed memory: a text is made without a heap, as a board is.
    let mut sizes = [[0u32; 2]; Track::MOST];
    let answer = board(bytes, &mut sizes);
    Some(put_answer(answer, &sizes, into))
}
