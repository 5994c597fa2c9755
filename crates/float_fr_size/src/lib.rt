// The size of an fr: the largest that does not exceed the space, with every track that it would shrink held at its base
// (specs/Fr.antt names the Rust's float steps in the Rust's order).
#![tactic(auto)]

ghost use Rattle.std.specs.Prelude.{◌≡◌, ◌<◌, length};
ghost use Rattle.float_fr_size.specs.Fr.{grows, add_to, holds_for, flex_at, sums_of, all_hold, fr_size, FrLengths};

use float_track::f32_max;

// What the search reads of a track.
#[derive(Clone, Copy)]
pub(crate) struct Flex {
    flexible: bool,
    factor: f32,
    base: f32,
}

// The tracks of a search: whether each is flexible, and its factor, apart as C lends them.
#[derive(Clone, Copy)]
pub struct Flexes<'a> {
    tracks: &'a [[f32; 5]],
    flexible: &'a [bool],
    factors: &'a [f32],
    ghost lengths: { FrLengths tracks.now flexible.now factors.now },
}

// The base sizes of the tracks held inflexible, and the factors of the others.
#[derive(Clone, Copy)]
pub(crate) struct Sums {
    used: f32,
    factors: f32,
}

impl Flex {
    // The track is flexible at this size of an fr: its part reaches its base. A NaN reaches nothing.
    fn grows(self, fr: f32) -> bool
        ensures { result ≡ grows self fr }
    {
        self.flexible && self.factor * fr >= self.base
    }

    fn add_to(self, fr: f32, sums: Sums) -> Sums
        ensures { result ≡ add_to self fr sums }
    {
        if self.grows(fr) {
            return Sums {
                used: sums.used,
                factors: sums.factors + self.factor,
            };
        }
        Sums {
            used: sums.used + self.base,
            factors: sums.factors,
        }
    }

    // The new size does not shrink the track, or the previous one did and it is held already.
    fn holds(self, fr: f32, previous: f32) -> bool
        ensures { result ≡ holds_for self fr previous }
    {
        !self.flexible || self.factor * fr >= self.base || self.factor * previous < self.base
    }
}

impl<'a> Flexes<'a> {
    ghost use Rattle.float_fr_size.specs.Flexes.{over};

    pub fn new(tracks: &'a [[f32; 5]], flexible: &'a [bool], factors: &'a [f32]) -> Flexes<'a>
        requires { FrLengths tracks.now flexible.now factors.now }
        ensures { (result.tracks.now ≡ tracks.now) × (result.flexible.now ≡ flexible.now) × (result.factors.now ≡ factors.now) }
    {
        Flexes {
            tracks,
            flexible,
            factors,
        }
    }

    fn flex(&self, i: usize) -> Flex
        requires { i < length self.now.tracks.now }
        ensures { result ≡ over flex_at self.now i }
    {
        Flex {
            flexible: self.flexible[i],
            factor: self.factors[i],
            base: self.tracks[i][0],
        }
    }

    #[tactic(auto, using(crate::proofs::Passes::by_turn))]
    fn sums_of(&self, fr: f32) -> Sums
        ensures { result ≡ over sums_of self.now fr }
    {
        let mut sums = Sums {
            used: 0.0,
            factors: 0.0,
        };
        // By index, since a flex is made of three lists at a place.
        for i in 0..self.tracks.len() {
            sums = self.flex(i).add_to(fr, sums);
        }
        sums
    }

    // A `for`, since the rule says it of each place below a number: over `all` of a range the proof did not close.
    fn all_hold(&self, fr: f32, previous: f32) -> bool
        ensures { result ≡ over all_hold self.now fr previous }
    {
        for i in 0..self.tracks.len() {
            if !self.flex(i).holds(fr, previous) {
                return false;
            }
        }
        true
    }

    // Passes until the size holds for every track, one more than there are tracks at most.
    #[tactic(auto, using(crate::proofs::Passes::by_pass))]
    pub fn find_size_of_fr(&self, space: f32) -> f32
        ensures { result ≡ over fr_size self.now space }
    {
        if space == 0.0 {
            return 0.0;
        }
        let most = self.tracks.len() + 1;
        let mut fr = f32::INFINITY;
        for _ in 0..most {
            let previous = fr;
            let sums = self.sums_of(previous);
            fr = (space - sums.used) / f32_max(sums.factors, 1.0);
            if self.all_hold(fr, previous) {
                return fr;
            }
        }
        fr
    }
}
