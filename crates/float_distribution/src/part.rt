// One track's part in a pass.
ghost use Rattle.std.specs.Prelude.{◌≡◌};
ghost use Rattle.float_distribution.specs.Distribution.{is_open, add_proportion, less_room, grown};

use float_track::{Track, f32_min};

// What a track takes part with.
#[derive(Clone, Copy)]
pub(crate) struct Part {
    pub(crate) affected: bool,
    pub(crate) proportion: f32,
    pub(crate) size: f32,
    pub(crate) limit: f32,
}

// A track after its turn, and the space that is left.
#[derive(Clone, Copy)]
pub(crate) struct Grown {
    pub(crate) track: Track,
    pub(crate) space: f32,
}

impl Part {
    // The track is affected, and below its limit.
    fn is_open(self, track: Track) -> bool
        ensures { result ≡ is_open self track }
    {
        self.size + track.item_incurred_increase < self.limit && self.affected
    }

    // The sum with an open track's proportion.
    pub(crate) fn add_proportion(self, track: Track, sum: f32) -> f32
        ensures { result ≡ add_proportion self track sum }
    {
        if self.is_open(track) {
            return sum + self.proportion;
        }
        sum
    }

    // The smaller of the least room so far and how far an open track is from its limit, by its proportion.
    pub(crate) fn less_room(self, track: Track, least: f32) -> f32
        ensures { result ≡ less_room self track least }
    {
        if self.is_open(track) {
            let room = (self.limit - self.size - track.item_incurred_increase) / self.proportion;
            return f32_min(room, least);
        }
        least
    }

    // An affected track takes its part of the share, if there is one and it fits.
    pub(crate) fn grow(self, mut track: Track, share: f32, space: f32) -> Grown
        ensures { result ≡ grown self track share space }
    {
        let increase = share * self.proportion;
        if self.affected
            && increase > 0.0
            && self.size + track.item_incurred_increase + increase
                <= self.limit + Track::THRESHOLD
        {
            track.item_incurred_increase += increase;
            return Grown {
                track,
                space: space - increase,
            };
        }
        Grown { track, space }
    }
}
