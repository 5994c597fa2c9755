// A track at work: its kinds, its base size and growth limit, and whether the limit is infinitely growable. That is a mark beside the limit, and no case
// of it, since the rule's line has both, and a line may have the mark and no limit.
ghost use Rattle.std.specs.Prelude.{◌≡◌};
ghost use Rattle.rounds.specs.Rooms.{room_in};
ghost use Rattle.lines.specs.Rule.{number, argument, limit_size, base_room, start_base, start_limit, start_line};

use crate::limit::cut_limit;
use kinds::{Maximum, Minimum, Track};

#[derive(Clone, Copy)]
pub struct Line {
    pub track: Track,
    pub base: u32,
    pub limit: Option<u32>,
    pub growable: bool,
}

impl Line {
    // What stands in the store of a board before step 1.
    pub const BLANK: Line = Line {
        track: Track {
            minimum: Minimum::Fixed(0),
            maximum: Maximum::Fixed(0),
        },
        base: 0,
        limit: None,
        growable: false,
    };

    // A track before the first item: a fixed minimum is its base, a fixed maximum its limit, which is not below the base.
    pub(crate) fn start(track: Track) -> Line
        ensures { result ≡ start_line track }
    {
        let base = start_base(track.minimum);
        let limit = start_limit(track.maximum).map(|n| base.max(n));
        Line {
            track,
            base,
            limit,
            growable: false,
        }
    }

    // The number of its maximum, a size, an argument, or a factor in thousandths; 0 for one without.
    pub fn number(self) -> u32
        ensures { result ≡ number self }
    {
        match self.track.maximum {
            Maximum::Fixed(n) | Maximum::FitContent(n) | Maximum::Fr(n) => n,
            _ => 0,
        }
    }

    // The limit as a size: none counts as base.
    pub fn limit_size(self) -> u32
        ensures { result ≡ limit_size self }
    {
        self.limit.unwrap_or(self.base)
    }

    // The argument of a fit-content maximum.
    pub fn argument(self) -> Option<u32>
        ensures { result ≡ argument self }
    {
        match self.track.maximum {
            Maximum::FitContent(n) => Some(n),
            _ => None,
        }
    }

    // Up to the growth limit, cut to a fit-content argument.
    pub fn base_room(self) -> Option<u32>
        ensures { room_in result ≡ base_room self }
    {
        let most = cut_limit(self.limit, self.argument());
        most.map(|n| n.saturating_sub(self.base))
    }
}

fn start_base(minimum: Minimum) -> u32
    ensures { result ≡ start_base minimum }
{
    match minimum {
        Minimum::Fixed(n) => n,
        _ => 0,
    }
}

fn start_limit(maximum: Maximum) -> Option<u32>
    ensures { result ≡ start_limit maximum }
{
    match maximum {
        Maximum::Fixed(n) => Some(n),
        _ => None,
    }
}
