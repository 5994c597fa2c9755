// The tracks of a call, on its own lists: what refuses them, each track's rest at the start, and its gain at the end.
ghost use Rattle.std.specs.Prelude.{◌≡◌, ◌<◌, ◌≤◌, true, false, length, MatchResult};
ghost use Rattle.fill.specs.Rule.{tracks_of, lists_fit, room_over, first_over};
ghost use Rattle.rounds.specs.Rests.{caps, cap_of, lost};
ghost use Rattle.fill.specs.Answer.{ListsFit};

use crate::answer::Refusal;
use kinds::{Constraint, Track};

// Which tracks are affected, which have a limit, and their rooms up to it: C lends mark and number apart. Where a track has no limit its room means nothing.
#[derive(Clone, Copy)]
pub struct Tracks<'a> {
    affected: &'a [bool],
    limited: &'a [bool],
    rooms: &'a [u32],
    ghost fit: { ListsFit affected.now limited.now rooms.now rooms.now },
}

impl<'a> Tracks<'a> {
    ghost use Rattle.rounds.specs.Rooms.{room_in};
    ghost use Rattle.fill.specs.Tracks.{in_rule, track_at};

    // The lists, unless they differ in length from the gains or are too long.
    pub fn of(
        affected: &'a [bool],
        limited: &'a [bool],
        rooms: &'a [u32],
        gains: usize,
    ) -> Result<Tracks<'a>, Refusal>
        ensures { let fits = lists_fit (length affected.now) (length limited.now) (length rooms.now) gains in MatchResult result
            (λ tracks. (fits ≡ true) × (length tracks.rooms.now ≡ gains) × (in_rule tracks ≡ tracks_of affected.now limited.now rooms.now))
            (λ refusal. (fits ≡ false) × (refusal ≡ Refusal.Lists)) }
    {
        if !fit(affected.len(), limited.len(), rooms.len(), gains) {
            return Err(Refusal::Lists);
        }
        Ok(Tracks {
            affected,
            limited,
            rooms,
        })
    }

    // The room up to a track's limit, if it has one.
    fn room(&self, i: usize) -> Option<u32>
        requires { i < length self.now.rooms.now }
        ensures { room_in result ≡ (track_at self.now i).room }
    {
        self.limited[i].then_some(self.rooms[i])
    }

    // A room is given, and it is over the space limit.
    fn is_over(&self, i: usize) -> bool
        requires { i < length self.now.rooms.now }
        ensures { result ≡ room_over (track_at self.now i).room }
    {
        self.rooms[i] > Constraint::MOST && self.limited[i]
    }

    // The most that a track can take of so many dots. The room is read of every track: with no branch before it the compiler takes several
    // tracks at a time.
    fn cap(&self, i: usize, dots: u32) -> u32
        requires { i < length self.now.rooms.now }
        ensures { result ≡ cap_of dots (track_at self.now i) }
    {
        let most = self.room(i).unwrap_or(dots);
        if self.affected[i] { most } else { 0 }
    }

    // Refuses the first track whose room is over the limit, affected or not. A `for`, and no `position`: it looks into two lists at one index.
    #[tactic(auto, using(crate::proofs::Turns::over))]
    pub fn check_rooms(&self) -> Result<(), Refusal>
        ensures { MatchResult result
            (λ _. length self.now.rooms.now ≤ first_over (in_rule self.now))
            (λ refusal. (first_over (in_rule self.now) < length self.now.rooms.now) × (refusal ≡ Refusal.Room (first_over (in_rule self.now)))) }
    {
        for i in 0..self.rooms.len() {
            if self.is_over(i) {
                return Err(Refusal::Room { track: i as u8 });
            }
        }
        Ok(())
    }

    // Each track's rest at the start.
    pub fn load(&self, dots: u32, rests: &mut [u32])
        requires { length rests.old ≡ length self.now.rooms.now }
        ensures { rests.new ≡ caps dots (in_rule self.now) }
    {
        for (i, rest) in rests.iter_mut().enumerate() {
            *rest = self.cap(i, dots);
        }
    }

    // Each track's gain in place of what is left of its rest.
    #[tactic(auto, using(crate::proofs::Turns::gains), unfolding(rounds::specs::Rests::lost))]
    pub fn to_gains(&self, dots: u32, rests: &mut [u32])
        requires { length rests.old ≡ length self.now.rooms.now }
        ensures { rests.new ≡ lost (caps dots (in_rule self.now)) rests.old }
    {
        for (i, rest) in rests.iter_mut().enumerate() {
            *rest = self.cap(i, dots).saturating_sub(*rest);
        }
    }
}

// The four lengths are one, and no more than a board has tracks.
fn fit(affected: usize, limited: usize, rooms: usize, gains: usize) -> bool
    ensures { result ≡ lists_fit affected limited rooms gains }
{
    gains <= Track::MOST && affected == gains && limited == gains && rooms == gains
}
