// Whether what the fill gave is what the case wants.
ghost use Rattle.std.specs.Prelude.{◌≡◌, true};
ghost use Rattle.fill.specs.Rule.{outcome, fill_call};
ghost use Rattle.fill.specs.Answer.{told_by};
ghost use Rattle.fill_vectors.specs.Wanted.{told_as};

use cases::Wanted;
use fill::{Filled, Refusal};

// A case wants a refusal's number and place, or a fill's leftover and rounds.
fn is_met_by(wanted: Wanted, answer: Result<Filled, Refusal>) -> bool
    ensures { result ≡ true → told_by answer ≡ told_as wanted }
{
    match (wanted, answer) {
        (Ok(told), Ok(filled)) => told.first == filled.leftover && told.second == filled.rounds,
        (Err(told), Err(refusal)) => told.is(refusal.number(), refusal.place() as usize),
        _ => false,
    }
}

// Whether the fill gives the wanted answer and leaves the gains as `after`. A case that agrees is the published rule's own
// answer.
pub fn is_given(
    wanted: Wanted,
    dots: u32,
    affected: &[bool],
    limited: &[bool],
    rooms: &[u32],
    gains: &mut [u32],
    after: &[u32],
) -> bool
    ensures { result ≡ true → outcome (told_as wanted) after.now ≡ fill_call dots affected.now limited.now rooms.now gains.old }
{
    let answer = fill::fill(dots, affected, limited, rooms, gains);
    is_met_by(wanted, answer) && *gains == *after
}
