// Whether what a call told is what the case wants told.
ghost use Rattle.std.specs.Prelude.{◌≡◌, true};
ghost use Rattle.sheet.specs.Answer.{read_told, write_told, end_told};
ghost use Rattle.sheet_vectors.specs.Wanted.{wanted_read, wanted_write, wanted_end};

use crate::space::is_space;
use cases::Wanted;
use sheet::{Contents, Refusal, SpaceRow};

// A case of reading wants a refusal's number and place, or the numbers of tracks and items with the space.
pub fn is_read(wanted: Wanted, row: SpaceRow, answer: Result<Contents, Refusal>) -> bool
    ensures { result ≡ true → read_told answer ≡ wanted_read wanted row }
{
    match (wanted, answer) {
        (Ok(told), Ok(contents)) => {
            told.first as usize == contents.tracks
                && told.second as usize == contents.items
                && is_space(contents.space, row)
        }
        (Err(told), Err(refusal)) => told.is(refusal.number(), refusal.place()),
        _ => false,
    }
}

// A case of writing wants a refusal's number and place, or the length that is written; a case of the end the place of the end
// for it.
pub fn is_size(wanted: Wanted, answer: Result<usize, Refusal>) -> bool
    ensures written { result ≡ true → write_told answer ≡ wanted_write wanted }
    ensures ended { result ≡ true → end_told answer ≡ wanted_end wanted }
{
    match (wanted, answer) {
        (Ok(told), Ok(size)) => told.first as usize == size,
        (Err(told), Err(refusal)) => told.is(refusal.number(), refusal.place()),
        _ => false,
    }
}
