// A sheet sized in dots, for C. `free` is written where the free space is definite, and `definite` says whether it is.
ghost use Rattle.std.specs.Prelude.{◌≡◌};
ghost use Rattle.board.specs.Rule.{board_call};
ghost use Rattle.torrivask.specs.Board.{board_left, board_face};

use crate::refused::refused;

#[unsafe(no_mangle)]
pub extern "C" fn torrivask_board(
    sheet: &[u8],
    sizes: &mut [[u32; 2]],
    tracks: &mut u32,
    definite: &mut bool,
    free: &mut i32,
    rounds: &mut u32,
    place: &mut u64,
) -> u32
    ensures { board_left result sizes.new tracks.new definite.new free.new rounds.new place.new ≡ board_face (board_call sheet.now sizes.old) tracks.old definite.old free.old rounds.old place.old }
{
    match board::board(sheet, sizes) {
        Ok(board) => {
            *tracks = board.tracks as u32;
            *rounds = board.rounds;
            *definite = board.free.is_some();
            if let Some(dots) = board.free {
                *free = dots;
            }
            0
        }
        Err(refusal) => refused(refusal, place),
    }
}
