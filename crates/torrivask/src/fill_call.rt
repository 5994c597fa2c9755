// The fill, for C: dots handed out below limits.
ghost use Rattle.std.specs.Prelude.{◌≡◌};
ghost use Rattle.fill.specs.Rule.{fill_call};
ghost use Rattle.torrivask.specs.Fill.{fill_left, fill_face};

use crate::refused::refused;

#[unsafe(no_mangle)]
pub extern "C" fn torrivask_fill(
    dots: u32,
    affected: &[bool],
    limited: &[bool],
    rooms: &[u32],
    gains: &mut [u32],
    leftover: &mut u32,
    rounds: &mut u32,
    place: &mut u64,
) -> u32
    ensures { fill_left result gains.new leftover.new rounds.new place.new ≡ fill_face (fill_call dots affected.now limited.now rooms.now gains.old) leftover.old rounds.old place.old }
{
    match fill::fill(dots, affected, limited, rooms, gains) {
        Ok(filled) => {
            *leftover = filled.leftover;
            *rounds = filled.rounds;
            0
        }
        Err(refusal) => refused(refusal, place),
    }
}
