// The walks over the rests, each track's room that is left: what is open, and what a round takes.
ghost use Rattle.std.specs.Prelude.{◌≡◌, ◌≤◌, length};
ghost use Rattle.rounds.specs.Rule.{most_tracks};
ghost use Rattle.rounds.specs.Rests.{take_each, take_odd};
ghost use Rattle.rounds.specs.Found.{found_in};

// What a round has to know: how many tracks are open, and the least room of an open one.
#[derive(Clone, Copy)]
pub struct Found {
    pub count: u32,
    pub least: u32,
}

// The one place that looks for both, in one walk. The least room counts only where it is below `most`.
// The walk keeps it less one: the rest of a full track, 0, wraps to the largest number, which is never the least. So it has no branch, and
// the compiler takes four rests at a time.
pub fn survey(most: u32, rests: &[u32]) -> Found
    requires { length rests.now ≤ most_tracks }
    ensures { result ≡ found_in most rests.now }
{
    let mut count: u32 = 0;
    // One more is still a number.
    let mut least_less_one = u32::MAX - 1;
    for &rest in rests {
        count += rest.min(1);
        least_less_one = least_less_one.min(rest.wrapping_sub(1));
    }
    let least = most.min(least_less_one + 1);
    Found { count, least }
}

// Each open track takes k, which is no more than the least room.
pub fn take_each(k: u32, rests: &mut [u32])
    ensures { rests.new ≡ take_each k rests.old }
{
    for rest in rests.iter_mut() {
        *rest = rest.saturating_sub(k);
    }
}

// One dot to each of the first open tracks, while dots remain.
pub fn take_odd(dots: u32, rests: &mut [u32])
    ensures { rests.new ≡ take_odd dots rests.old }
{
    let mut left = dots;
    for rest in rests.iter_mut() {
        let one = left.min(*rest).min(1);
        *rest -= one;
        left -= one;
    }
}
