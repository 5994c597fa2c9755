// What an item contributes to a letter, and the dots that it asks beyond the sizes it spans.
ghost use Rattle.std.specs.Prelude.{◌≡◌, map, ◌-◌, ◌≤◌, length};
ghost use Rattle.laws.specs.Sums.{sum};
ghost use Rattle.rounds.specs.Rule.{most_tracks};
ghost use Rattle.lines.specs.Rule.{maxima, limited, for_auto, extra_of};
ghost use Rattle.lines.specs.Fits.{LinesFit};
ghost use Rattle.letters.specs.Letters.{letter_of, fixed_maximum};
ghost use Rattle.letters.specs.Props.{lines-fit-once};

use crate::letter::Letter;
use kinds::{Constraint, ContributionKind, Maximum};
use lines::{Line, Measured};

// The number of a maximum that is fixed or fit-content.
fn fixed_maximum(line: Line) -> Option<u32>
    ensures { result ≡ fixed_maximum line.track.maximum }
{
    match line.track.maximum {
        Maximum::Fixed(n) | Maximum::FitContent(n) => Some(n),
        _ => None,
    }
}

// The lines that an item spans, or the one of its track: not too many, and each of them fits.
#[derive(Clone, Copy)]
pub struct Span<'a> {
    pub lines: &'a [Line],
    ghost few: { length lines.now ≤ most_tracks },
    ghost fit: { LinesFit lines.now } by { lines-fit-once lines.now },
}

impl<'a> Span<'a> {
    // The sum of the spanned maxima when all are fixed or fit-content.
    fn maxima(self) -> Option<u32>
        ensures { result ≡ maxima self.entry.lines.now }
    {
        let mut sum: u32 = 0;
        for line in self.lines {
            sum += fixed_maximum(*line)?;
        }
        Some(sum)
    }

    // Cut to the sum of the maxima, then raised to the minimum contribution.
    fn limited(self, n: u32, item: Measured) -> u32
        ensures { result ≡ limited n item self.entry.lines.now }
    {
        let cut = self.maxima().map_or(n, |most| most.min(n));
        item.at(ContributionKind::Minimum).max(cut)
    }

    // The minimum contribution, or under a min- or max-content constraint the limited min-content one.
    pub fn for_auto(self, constraint: Constraint, item: Measured) -> u32
        ensures { result ≡ for_auto constraint item self.entry.lines.now }
    {
        match constraint {
            Constraint::Definite(_) => item.at(ContributionKind::Minimum),
            _ => self.limited(item.at(ContributionKind::MinContent), item),
        }
    }

    fn contribution(self, letter: Letter, constraint: Constraint, item: Measured) -> u32
        ensures { result ≡ (letter_of letter).contribution constraint item self.entry.lines.now }
    {
        match letter {
            Letter::A => self.for_auto(constraint, item),
            Letter::B | Letter::E => item.at(ContributionKind::MinContent),
            Letter::C => self.limited(item.at(ContributionKind::MaxContent), item),
            Letter::D | Letter::F => item.at(ContributionKind::MaxContent),
        }
    }

    // The dots that an item asks beyond the sizes of the lines that it spans, which make `total`.
    pub fn extra(self, letter: Letter, constraint: Constraint, item: Measured, total: u64) -> u32
        requires { total ≡ sum (map (letter_of letter).present self.lines.now) }
        ensures { result ≡ extra_of (letter_of letter) constraint item self.entry.lines.now }
    {
        beyond(self.contribution(letter, constraint, item), total)
    }
}

// So many dots without a total, at least 0.
pub fn beyond(dots: u32, total: u64) -> u32
    ensures { result ≡ dots - total }
{
    (dots as u64).saturating_sub(total) as u32
}
