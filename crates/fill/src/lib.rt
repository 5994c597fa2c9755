// The fill called by itself: its refusals, and the rounds on the call's own lists (specs/Rule.antt is the rule, docs/PROMISES.md the
// promise in words).
//
// The lent gains are the working store: they hold each track's rest while the rounds run, and its gain at the end. No
// byte of them is written before every refusal has been ruled out.
#![tactic(auto)]

mod answer;
mod tracks;

ghost use Rattle.std.specs.Prelude.{◌≡◌, length};
ghost use Rattle.fill.specs.Rule.{filled, outcome, filled_outcome, fill_call};
ghost use Rattle.rounds.specs.Rule.{fill};
ghost use Rattle.fill.specs.Answer.{leaves};
ghost use Rattle.fill.specs.Tracks.{in_rule};

pub use answer::{Filled, Refusal};
use kinds::Constraint;
use tracks::Tracks;

// Hands out the dots. Where the call is refused the gains keep what they hold; else each is written, 0 for a track that
// is not affected.
#[tactic(auto, using(crate::proofs::Call::cases))]
pub fn fill(
    dots: u32,
    affected: &[bool],
    limited: &[bool],
    rooms: &[u32],
    gains: &mut [u32],
) -> Result<Filled, Refusal>
    ensures { leaves result gains.new ≡ fill_call dots affected.now limited.now rooms.now gains.old }
{
    let tracks = Tracks::of(affected, limited, rooms, gains.len())?;
    if dots > Constraint::MOST {
        return Err(Refusal::Dots);
    }
    tracks.check_rooms()?;
    Ok(hand_out(dots, &tracks, gains))
}

// The fill of lists that fit: each track's rest is loaded, the rounds are run, and what each rest lost is its gain.
fn hand_out(dots: u32, tracks: &Tracks, gains: &mut [u32]) -> Filled
    requires { length gains.old ≡ length tracks.now.rooms.now }
    ensures { outcome (filled result.leftover result.rounds) gains.new ≡ filled_outcome (fill dots (in_rule tracks.now)) }
{
    tracks.load(dots, gains);
    let done = rounds::run_rounds(dots, gains);
    tracks.to_gains(dots, gains);
    Filled {
        leftover: done.left,
        rounds: done.rounds,
    }
}
