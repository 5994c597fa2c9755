// The share by factor of the last batch (lines/specs/ByFactor.antt is the rule): only affected fr tracks take part. The factors stand in gains and
// rests while it is made, so that the dots over go out by the rounds' own walk. Products have 64 bits. Lines, gains and rests are three slices, read by
// index: share.rt says why.
ghost use Rattle.std.specs.Prelude.{◌≡◌, true, ◌+◌, ◌≤◌, ◌<◌, length};
ghost use mathlib.Core.List.{zip_with};
ghost use Rattle.laws.specs.Lists.{some};
ghost use Rattle.laws.specs.Sums.{sum};
ghost use Rattle.rounds.specs.Rule.{most_dots};
ghost use Rattle.lines.specs.ByFactor.{quota, quotas, dots_over, by_factors};
ghost use Rattle.lines.specs.Rule.{affects_fr, shares_by_factor};
ghost use Rattle.lines.specs.Fits.{LinesFit};
ghost use Rattle.letters.specs.Letters.{letter_of};
ghost use Rattle.letters.specs.Shares.{Scratch};
ghost use Rattle.letters.specs.Factors.{line_factor, line_factors, FactorsFit};

use crate::letter::Letter;
use crate::share::{Share, share_out, take_off};
use lines::Line;
use rounds::take_odd;
use spanned::is_fr;

pub(crate) fn affects_fr(letter: Letter, line: Line) -> bool
    ensures { result ≡ affects_fr (letter_of letter) line }
{
    letter.affected(line) & is_fr(line.track)
}

// The factor of a line; 0 where the letter does not affect it or it is not fr.
fn line_factor(letter: Letter, line: Line) -> u32
    ensures { result ≡ line_factor letter line }
{
    if affects_fr(letter, line) {
        line.number()
    } else {
        0
    }
}

// The factors that count, into gains and rests. All of them together come back.
fn load_factors(letter: Letter, lines: &[Line], gains: &mut [u32], rests: &mut [u32]) -> u64
    requires { Scratch lines.now gains.old rests.old }
    ensures { (gains.new ≡ line_factors letter lines.now)
        × (rests.new ≡ line_factors letter lines.now)
        × (result ≡ sum (line_factors letter lines.now)) }
{
    let mut total: u64 = 0;
    for (i, line) in lines.iter().enumerate() {
        let factor = line_factor(letter, *line);
        gains[i] = factor;
        rests[i] = factor;
        total += factor as u64;
    }
    total
}

// What a factor gets of the dots, rounded down.
fn quota(dots: u32, total: u64, factor: u32) -> u32
    requires { (0 < total) × (factor ≤ total) }
    ensures { (result ≡ quota dots total factor) × (result ≤ dots) }
{
    let product = dots as u64 * factor as u64;
    (product / total) as u32
}

// Each quota, with its factor on top, into the gains. The dots over come back.
fn load_quotas(dots: u32, total: u64, factors: &[u32], gains: &mut [u32]) -> u32
    requires { (length gains.old ≡ length factors.now)
        × (total ≡ sum factors.now)
        × (0 < total)
        × (dots ≤ most_dots)
        × FactorsFit factors.now }
    ensures { (gains.new ≡ zip_with ◌+◌ (quotas dots factors.now) factors.now)
        × (result ≡ dots_over dots factors.now) }
{
    let mut over = dots;
    for (i, factor) in factors.iter().enumerate() {
        let part = quota(dots, total, *factor);
        gains[i] = part + *factor;
        over = over.saturating_sub(part);
    }
    over
}

// The share where some factor is above 0; the rests hold the factors. A factor that takes an odd dot is one less when it is taken off.
fn share_quotas(dots: u32, total: u64, gains: &mut [u32], rests: &mut [u32])
    requires { (length gains.old ≡ length rests.old)
        × (total ≡ sum rests.old)
        × (0 < total)
        × (dots ≤ most_dots)
        × FactorsFit rests.old }
    ensures { gains.new ≡ by_factors dots rests.old }
{
    let over = load_quotas(dots, total, rests, gains);
    take_odd(over, rests);
    take_off(rests, gains);
}

// An item's extra dots by factor, or by the plain fill where all factors are 0: the gains are then 0 before it. A line alone takes all of them.
pub(crate) fn share_by_factor(
    letter: Letter,
    extra: u32,
    lines: &[Line],
    gains: &mut [u32],
    rests: &mut [u32],
)
    requires { Scratch lines.now gains.old rests.old
        × (extra ≤ most_dots)
        × LinesFit lines.now
        × (some (affects_fr (letter_of letter)) lines.now ≡ true) }
    ensures { gains.new ≡ shares_by_factor (letter_of letter) extra lines.now }
{
    if lines.len() == 1 {
        gains[0] = extra;
        return;
    }
    let total = load_factors(letter, lines, gains, rests);
    if total == 0 {
        share_out(Share::Plain(letter), extra, lines, gains, rests);
        return;
    }
    share_quotas(extra, total, gains, rests);
}
