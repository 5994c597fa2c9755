// The fr search over a run of lines, in exact fractions.
ghost use Rattle.std.specs.Prelude.{◌≡◌, length};
ghost use Rattle.laws.specs.Lists.{some};
ghost use Rattle.lines.specs.Rule.{search_over};
ghost use Rattle.lines.specs.Fr.{fr_now, short};
ghost use Rattle.flexible.specs.Flexes.{flex_at, flexes, held_first, held_next, StoreFits};

use lines::{Fr, Line};
use spanned::is_fr;

// Restarts, no more of them than lines: each holds one line more.
pub fn search_over(space: u32, lines: &[Line], held: &mut [bool]) -> Fr
    requires { StoreFits lines.now held.old }
    ensures { result ≡ search_over space lines.now }
{
    hold_first(lines, held);
    for _ in 0..lines.len() {
        let fr = fr_now(space, lines, held);
        let more = hold_short(fr, lines, held);
        if !more {
            return fr;
        }
    }
    fr_now(space, lines, held)
}

// All but the fr tracks are held from the start.
#[tactic(auto, unfolding(crate::specs::Flexes::held_first))]
fn hold_first(lines: &[Line], held: &mut [bool])
    requires { length held.old ≡ length lines.now }
    ensures { held.new ≡ held_first lines.now }
{
    for (i, mark) in held.iter_mut().enumerate() {
        *mark = !is_fr(lines[i].track);
    }
}

// The fr of the present holds.
fn fr_now(space: u32, lines: &[Line], held: &[bool]) -> Fr
    requires { StoreFits lines.now held.now }
    ensures { result ≡ fr_now space (flexes lines.now held.now) }
{
    let mut sizes: u32 = 0;
    let mut factors: u32 = 0;
    // By index: over `zip` what the loop keeps true would be said of both lists at the number of pairs that were yielded, which is this index. The
    // other loops write one of their lists, and the library has no lemmas over `zip` for that.
    for i in 0..lines.len() {
        let line = lines[i];
        let mark = held[i];
        sizes += if mark { line.base } else { 0 };
        factors += if mark { 0 } else { line.number() };
    }
    Fr {
        dots: space.saturating_sub(sizes),
        per: factors.max(1000),
    }
}

// A line that is not held, and whose factor times fr is below its base.
fn is_short(fr: Fr, line: Line, held: bool) -> bool
    ensures { result ≡ short fr (flex_at line held) }
{
    let share = line.number() as u64 * fr.dots as u64;
    let asked = line.base as u64 * fr.per as u64;
    if held {
        return false;
    }
    share < asked
}

// Holds every line that is short, and tells whether there was one.
fn hold_short(fr: Fr, lines: &[Line], held: &mut [bool]) -> bool
    requires { length held.old ≡ length lines.now }
    ensures { (result ≡ some (short fr) (flexes lines.now held.old))
        × (held.new ≡ held_next fr lines.now held.old) }
{
    let mut any = false;
    for (i, mark) in held.iter_mut().enumerate() {
        let short = is_short(fr, lines[i], *mark);
        *mark = short | *mark;
        any = short | any;
    }
    any
}
