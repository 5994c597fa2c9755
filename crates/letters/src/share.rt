// Shares of dots among lines: each gets what the fill gives it, on top of the gain that it has. The two shares of a letter find
// each cap once, and keep it in the gain while the rounds run. The rests are scratch: what stands in them is not read.
// Lists that go along with one another are read by index: the library's lemmas over `zip` are of two lists that are read, and here one is written.
// Lines, gains and rests stay three slices and no struct: a caller cuts its part of each for one item, `share_out` takes increases for gains,
// and the rounds take the rests alone. That lines fit, and that dots are no more than the most, stay clauses: each is a bound that the caller has, and
// a type for it would be taken off at the first sum.
ghost use Rattle.std.specs.Prelude.{◌≡◌, cond, not, ◌&&◌, ◌||◌, ◌+◌, ◌≤◌, length};
ghost use mathlib.Core.List.{[], ◌∷◌, map, zip_with};
ghost use Rattle.laws.specs.Lists.{some};
ghost use Rattle.rounds.specs.Rule.{most_dots, gains_of};
ghost use Rattle.rounds.specs.Rests.{cap_in, cap_of, caps, lost};
ghost use Rattle.lines.specs.Rule.{max_in, more_gains, shares};
ghost use Rattle.rounds.specs.Rooms.{room_in};
ghost use Rattle.lines.specs.Fits.{LinesFit};
ghost use Rattle.letters.specs.Letters.{letter_of};
ghost use Rattle.letters.specs.Shares.{track_in, is_taker, first_caps, first_fill, rest_caps, rest_fill, share_fill, taken, Scratch, GainsFit, TakenFits};

use crate::by_factor::affects_fr;
use crate::letter::Letter;
use kinds::Maximum;
use lines::Line;
use rounds::run_rounds;

// What is shared out by one fill alone: the dots of step 5, those of step 7, or those of a letter in the last batch where all factors are 0.
// An enum, and no function handed over: `load` and `collect` both find each cap by it.
#[derive(Clone, Copy)]
pub enum Share {
    Maximise,
    Stretch,
    Plain(Letter),
}

// A track that is not affected takes nothing.
fn cap_of(affected: bool, room: Option<u32>, dots: u32) -> u32
    ensures { result ≡ cond affected (cap_in dots (room_in room)) 0 }
{
    if affected { room.unwrap_or(dots) } else { 0 }
}

// Whether a track takes what remains of a letter's dots. `takers_only` says that some affected track does before the others, so that
// these do not.
fn takes_rest(letter: Letter, takers_only: bool, line: Line) -> bool
    ensures { result ≡ ((letter_of letter).affected line && ((letter_of letter).takes line || not takers_only)) }
{
    let takes = letter.takes(line) | !takers_only;
    letter.affected(line) & takes
}

fn is_auto(line: Line) -> bool
    ensures { result ≡ max_in (2 ∷ []) line }
{
    matches!(line.track.maximum, Maximum::Auto)
}

impl Share {
    // The most that a line can take of the dots.
    fn cap(self, line: Line, dots: u32) -> u32
        ensures { result ≡ cap_of dots (track_in self line) }
    {
        match self {
            Share::Maximise => cap_of(true, line.base_room(), dots),
            Share::Stretch => cap_of(is_auto(line), None, dots),
            Share::Plain(letter) => cap_of(affects_fr(letter, line), None, dots),
        }
    }
}

fn load(share: Share, dots: u32, lines: &[Line], rests: &mut [u32])
    requires { length rests.old ≡ length lines.now }
    ensures { rests.new ≡ caps dots (map (track_in share) lines.now) }
{
    for (i, rest) in rests.iter_mut().enumerate() {
        *rest = share.cap(lines[i], dots);
    }
}

// What each rest lost is gained.
fn collect(share: Share, dots: u32, lines: &[Line], rests: &[u32], gains: &mut [u32])
    requires { Scratch lines.now gains.old rests.now × TakenFits share dots lines.now gains.old rests.now }
    ensures { gains.new ≡ zip_with ◌+◌ gains.old (taken share dots lines.now gains.old rests.now) }
{
    for (i, gain) in gains.iter_mut().enumerate() {
        let cap = share.cap(lines[i], dots);
        *gain += cap.saturating_sub(rests[i]);
    }
}

// The dots are filled in. The rounds come back.
pub fn share_out(
    share: Share,
    dots: u32,
    lines: &[Line],
    gains: &mut [u32],
    rests: &mut [u32],
) -> u32
    requires { Scratch lines.now gains.old rests.old × (dots ≤ most_dots) × GainsFit gains.old }
    ensures { (gains.new ≡ more_gains gains.old (share_fill share dots lines.now gains.old))
        × (result ≡ (share_fill share dots lines.now gains.old).rounds) }
{
    load(share, dots, lines, rests);
    let done = run_rounds(dots, rests);
    collect(share, dots, lines, rests, gains);
    done.rounds
}

// The caps of a letter's first share: the rounds run on the rests, and the gains keep them. A walk of its own beside `load_rest`, which adds to
// gains that stand: one for both would take a pass more.
fn load_first(letter: Letter, dots: u32, lines: &[Line], gains: &mut [u32], rests: &mut [u32])
    requires { Scratch lines.now gains.old rests.old }
    ensures { (gains.new ≡ first_caps letter dots lines.now)
        × (rests.new ≡ first_caps letter dots lines.now) }
{
    for (i, line) in lines.iter().enumerate() {
        let cap = cap_of(letter.affected(*line), letter.room(*line), dots);
        gains[i] = cap;
        rests[i] = cap;
    }
}

// Each rest is taken off its gain: of the cap that stands in it, what was taken stays. A walk shared with `lay_over` would be longer than
// both: theirs are two rules, which part where the lists are not as long as each other.
pub(crate) fn take_off(rests: &[u32], gains: &mut [u32])
    requires { length rests.now ≡ length gains.old }
    ensures { gains.new ≡ lost gains.old rests.now }
{
    for (i, gain) in gains.iter_mut().enumerate() {
        *gain = (*gain).saturating_sub(rests[i]);
    }
}

// The first share of a letter: the gains hold each cap while the rounds run on the rests, and what was taken at the end. What
// stood in them is not read. What is left comes back.
fn share_first(
    letter: Letter,
    dots: u32,
    lines: &[Line],
    gains: &mut [u32],
    rests: &mut [u32],
) -> u32
    requires { Scratch lines.now gains.old rests.old }
    ensures { (gains.new ≡ gains_of (first_fill letter dots lines.now).tracks)
        × (result ≡ (first_fill letter dots lines.now).left) }
{
    load_first(letter, dots, lines, gains, rests);
    let done = run_rounds(dots, rests);
    take_off(rests, gains);
    done.left
}

// Some affected track takes what remains.
fn some_taker(letter: Letter, lines: &[Line]) -> bool
    ensures { result ≡ some (is_taker (letter_of letter)) lines.now }
{
    lines
        .iter()
        .any(|line| letter.affected(*line) & letter.takes(*line))
}

// The caps of what remains: the rounds run on the rests, and each gain has its cap on top.
fn load_rest(
    letter: Letter,
    takers_only: bool,
    dots: u32,
    lines: &[Line],
    gains: &mut [u32],
    rests: &mut [u32],
)
    requires { Scratch lines.now gains.old rests.old × (dots ≤ most_dots) × GainsFit gains.old × LinesFit lines.now }
    ensures { (gains.new ≡ zip_with ◌+◌ gains.old (rest_caps letter takers_only dots lines.now gains.old))
        × (rests.new ≡ rest_caps letter takers_only dots lines.now gains.old) }
{
    for (i, line) in lines.iter().enumerate() {
        let gain = gains[i];
        let cap = cap_of(
            takes_rest(letter, takers_only, *line),
            letter.rest_room(*line, gain),
            dots,
        );
        gains[i] = gain + cap;
        rests[i] = cap;
    }
}

// What remains of a letter's dots, on top of the gains of the first share.
fn share_rest(
    letter: Letter,
    takers_only: bool,
    dots: u32,
    lines: &[Line],
    gains: &mut [u32],
    rests: &mut [u32],
)
    requires { Scratch lines.now gains.old rests.old × (dots ≤ most_dots) × GainsFit gains.old × LinesFit lines.now }
    ensures { gains.new ≡ more_gains gains.old (rest_fill letter takers_only dots lines.now gains.old) }
{
    load_rest(letter, takers_only, dots, lines, gains, rests);
    run_rounds(dots, rests);
    take_off(rests, gains);
}

// Both shares of a letter's extra dots; the second only if dots remain.
pub(crate) fn share_extra(
    letter: Letter,
    extra: u32,
    lines: &[Line],
    gains: &mut [u32],
    rests: &mut [u32],
)
    requires { Scratch lines.now gains.old rests.old × (extra ≤ most_dots) × LinesFit lines.now }
    ensures { gains.new ≡ shares (letter_of letter) extra lines.now }
{
    let left = share_first(letter, extra, lines, gains, rests);
    if left == 0 {
        return;
    }
    let takers_only = some_taker(letter, lines);
    share_rest(letter, takers_only, left, lines, gains, rests);
}
