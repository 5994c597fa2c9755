// The board, with everything that it leaves compared. A case that agrees is the published rule's own answer.
ghost use Rattle.std.specs.Prelude.{◌≡◌, true};
ghost use Rattle.board.specs.Rule.{board_call};
ghost use Rattle.board.specs.Answer.{board_told};
ghost use Rattle.board_vectors.specs.Wanted.{told_as, left_as};

use crate::told::Told;
use board::{Board, Refusal};
use cases::same;

fn is_told(told: Told, answer: Result<Board, Refusal>) -> bool
    ensures { result ≡ true → board_told answer ≡ told_as told }
{
    match (told.wanted, answer) {
        (Ok(wanted), Ok(board)) => {
            wanted.first as usize == board.tracks
                && wanted.second == board.rounds
                && told.free == board.free.map(i64::from)
        }
        (Err(wanted), Err(refusal)) => wanted.is(refusal.number(), refusal.place()),
        _ => false,
    }
}

// Whether the board tells what is wanted and leaves the sizes as given after it.
pub fn is_given(told: Told, bytes: &[u8], sizes: &mut [[u32; 2]], after: &[[u32; 2]]) -> bool
    ensures { result ≡ true → left_as told after.now ≡ board_call bytes.now sizes.old }
{
    let answer = board::board(bytes, sizes);
    is_told(told, answer) && same(sizes, after)
}
