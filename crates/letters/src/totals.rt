// Totals: before each line, and behind the last, the bases and the limits so far, so that what a span has together is the difference of
// two of them; and all the bases.
ghost use Rattle.std.specs.Prelude.{◌≡◌, ◌+◌, ◌-◌, ◌≤◌, length};
ghost use Rattle.rounds.specs.Rule.{most_tracks};
ghost use Rattle.lines.specs.Rule.{bases};
ghost use Rattle.letters.specs.Totals.{tallied, total_in};

use crate::letter::Letter;
use lines::Line;

#[derive(Clone, Copy)]
pub struct Totals {
    pub bases: u64,
    pub limits: u64,
}

impl Totals {
    pub const NONE: Totals = Totals {
        bases: 0,
        limits: 0,
    };
}

// A limit of none counts as base, as wherever a letter measures.
pub fn tally(lines: &[Line], sums: &mut [Totals])
    requires { (length lines.now ≤ most_tracks) × (length sums.old ≡ length lines.now + 1) }
    ensures { sums.new ≡ tallied lines.now }
{
    let mut so_far = Totals::NONE;
    for (i, line) in lines.iter().enumerate() {
        sums[i] = so_far;
        so_far.bases += line.base as u64;
        so_far.limits += line.limit_size() as u64;
    }
    sums[lines.len()] = so_far;
}

// All the bases together.
pub fn base_total(lines: &[Line]) -> u64
    requires { length lines.now ≤ most_tracks }
    ensures { result ≡ bases lines.now }
{
    let mut total: u64 = 0;
    for line in lines {
        total += line.base as u64;
    }
    total
}

impl Letter {
    // Of the two totals, that of the sizes which the letter measures against.
    fn total_in(self, totals: Totals) -> u64
        ensures { result ≡ total_in self totals }
    {
        match self {
            Letter::E | Letter::F => totals.limits,
            _ => totals.bases,
        }
    }

    // The sizes between two of the totals, all together.
    pub fn total_between(self, from: Totals, to: Totals) -> u64
        requires { total_in self from ≤ total_in self to }
        ensures { result ≡ total_in self to - total_in self from }
    {
        self.total_in(to) - self.total_in(from)
    }
}
