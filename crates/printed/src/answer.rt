// An answer's lines: the board's first line and one for each track, or the one line of a refusal.
ghost use Rattle.std.specs.Prelude.{◌++◌, ◌+◌, ◌*◌, ◌≤◌, length, take};
ghost use Rattle.sizing.specs.Size.{free_told};
ghost use Rattle.board.specs.Answer.{board_told};
ghost use Rattle.printed.specs.Rule.{most_cell, most_board_line, most_track_line, most_refusal_line, free_text, board_line, track_line, track_lines, refusal_line, answer_text};
ghost use Rattle.printed.specs.Putting.{Putting};
ghost use Rattle.printed.specs.Answer.{TracksWithin};

use crate::put::{put_cell, put_number, put_signed, put_word};
use board::{Board, Refusal};

fn put_free(at: usize, free: Option<i32>, into: &mut [u8]) -> usize
    requires { at + most_cell ≤ length into.old }
    ensures { Putting most_cell at (free_text (free_told free)) into.old into.new result }
{
    match free {
        Some(dots) => put_signed(at, dots, into),
        None => put_word(at, b"none", into),
    }
}

fn put_board_line(board: Board, into: &mut [u8]) -> usize
    requires { most_board_line ≤ length into.old }
    ensures { Putting most_board_line 0 (board_line board.tracks (free_told board.free) board.rounds) into.old into.new result }
{
    let behind_word = put_word(0, b"tracks ", into);
    let behind_tracks = put_number(behind_word, board.tracks as u64, into);
    let before_free = put_word(behind_tracks, b" free ", into);
    let behind_free = put_free(before_free, board.free, into);
    let before_rounds = put_word(behind_free, b" rounds ", into);
    put_cell(before_rounds, board.rounds as u64, b'\n', into)
}

fn put_track_line(at: usize, t: usize, sizes: [u32; 2], into: &mut [u8]) -> usize
    requires { at + most_track_line ≤ length into.old }
    ensures { Putting most_track_line at (track_line t sizes) into.old into.new result }
{
    let behind_track = put_cell(at, t as u64, b' ', into);
    let behind_base = put_cell(behind_track, sizes[0] as u64, b' ', into);
    put_cell(behind_base, sizes[1] as u64, b'\n', into)
}

fn put_track_lines(at: usize, tracks: usize, sizes: &[[u32; 2]], into: &mut [u8]) -> usize
    requires { (tracks ≤ length sizes.now) × (at + most_track_line * tracks ≤ length into.old) }
    ensures { Putting (most_track_line * tracks) at (track_lines 0 (take tracks sizes.now)) into.old into.new result }
{
    let mut next = at;
    // By index: the proof of a walk over `sizes[..tracks]` did not close.
    for t in 0..tracks {
        next = put_track_line(next, t, sizes[t], into);
    }
    next
}

fn put_board(board: Board, sizes: &[[u32; 2]], into: &mut [u8]) -> usize
    requires { (board.tracks ≤ length sizes.now) × (most_board_line + most_track_line * board.tracks ≤ length into.old) }
    ensures { Putting (most_board_line + most_track_line * board.tracks) 0 (board_line board.tracks (free_told board.free) board.rounds ++ track_lines 0 (take board.tracks sizes.now)) into.old into.new result }
{
    let behind_line = put_board_line(board, into);
    put_track_lines(behind_line, board.tracks, sizes, into)
}

fn put_refusal(number: u32, place: usize, into: &mut [u8]) -> usize
    requires { most_refusal_line ≤ length into.old }
    ensures { Putting most_refusal_line 0 (refusal_line number place) into.old into.new result }
{
    let behind_word = put_word(0, b"refused ", into);
    let behind_number = put_number(behind_word, number as u64, into);
    let before_place = put_word(behind_number, b" at ", into);
    put_cell(before_place, place as u64, b'\n', into)
}

// The tracks' sizes are the first of those that are handed over.
pub fn put_answer(answer: Result<Board, Refusal>, sizes: &[[u32; 2]], into: &mut [u8]) -> usize
    requires { TracksWithin (board_told answer) sizes.now × (most_board_line + most_track_line * length sizes.now ≤ length into.old) }
    ensures { Putting (most_board_line + most_track_line * length sizes.now) 0 (answer_text (board_told answer) sizes.now) into.old into.new result }
{
    match answer {
        Ok(board) => put_board(board, sizes, into),
        Err(refusal) => put_refusal(refusal.number(), refusal.place(), into),
    }
}
