// The two sorts of batch in step 3: of a span, whose items cross no fr track, and the last, whose items do. An enum, and no functions handed over: whom a
// letter affects, how extra dots are shared and which letters run are asked in three places of one walk. Lines, gains and rests are three slices:
// share.rt says why.
ghost use Rattle.std.specs.Prelude.{◌≡◌, true, ◌≤◌};
ghost use Rattle.laws.specs.Lists.{some};
ghost use Rattle.rounds.specs.Rule.{most_dots};
ghost use Rattle.lines.specs.Fits.{LinesFit};
ghost use Rattle.letters.specs.Letters.{letter_of};
ghost use Rattle.letters.specs.Shares.{Scratch};
ghost use Rattle.letters.specs.Batches.{affected_in, shares_in};

use crate::by_factor::{affects_fr, share_by_factor};
use crate::letter::Letter;
use crate::share::share_extra;
use lines::Line;

#[derive(Clone, Copy)]
pub enum Batch {
    OfSpan,
    Last,
}

impl Batch {
    fn affects(self, letter: Letter, line: Line) -> bool
        ensures { result ≡ affected_in self (letter_of letter) line }
    {
        match self {
            Batch::OfSpan => letter.affected(line),
            Batch::Last => affects_fr(letter, line),
        }
    }
}

// Whether a letter affects any of the lines that an item spans: where it affects none, no share is made.
pub fn affects_some(batch: Batch, letter: Letter, lines: &[Line]) -> bool
    ensures { result ≡ some (affected_in batch (letter_of letter)) lines.now }
{
    lines.iter().any(|line| batch.affects(letter, *line))
}

// The extra dots of an item, shared as its batch has it among lines of which one at least is affected.
pub fn share_in(
    batch: Batch,
    letter: Letter,
    extra: u32,
    lines: &[Line],
    gains: &mut [u32],
    rests: &mut [u32],
)
    requires { Scratch lines.now gains.old rests.old
        × (extra ≤ most_dots)
        × LinesFit lines.now
        × (some (affected_in batch (letter_of letter)) lines.now ≡ true) }
    ensures { gains.new ≡ shares_in batch (letter_of letter) extra lines.now }
{
    match batch {
        Batch::OfSpan => share_extra(letter, extra, lines, gains, rests),
        Batch::Last => share_by_factor(letter, extra, lines, gains, rests),
    }
}
