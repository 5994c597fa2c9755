// The lettered steps (a) to (f) of the longer spans: whom each affects, with what room, and what an increase does.
ghost use Rattle.std.specs.Prelude.{◌≡◌, ◌+◌, ◌≤◌};
ghost use Rattle.rounds.specs.Rooms.{room_in};
ghost use Rattle.lines.specs.Rule.{limit_size, grown_base, grown_limit, limit_room};
ghost use Rattle.letters.specs.Letters.{by_minimum, by_maximum, letter_of, changes_unraised, most};

use kinds::{Maximum, Minimum};
use lines::Line;

#[derive(Clone, Copy)]
pub enum Letter {
    A,
    B,
    C,
    D,
    E,
    F,
}

// Whether a minimum is of a wanted kind; fixed never is. By flags: one `matches!` for each letter was written, and its proof did not close.
fn by_minimum(line: Line, auto: bool, min_content: bool, max_content: bool) -> bool
    ensures { result ≡ by_minimum line.track.minimum auto min_content max_content }
{
    match line.track.minimum {
        Minimum::Fixed(_) => false,
        Minimum::Auto => auto,
        Minimum::MinContent => min_content,
        Minimum::MaxContent => max_content,
    }
}

// Whether a maximum is of a wanted kind; fixed and fr never are, auto and max-content go together. Flags as above.
pub(crate) fn by_maximum(line: Line, wide: bool, min_content: bool, fit_content: bool) -> bool
    ensures { result ≡ by_maximum line.track.maximum wide min_content fit_content }
{
    match line.track.maximum {
        Maximum::Auto | Maximum::MaxContent => wide,
        Maximum::MinContent => min_content,
        Maximum::FitContent(_) => fit_content,
        _ => false,
    }
}

// The room of a limit: none at all, unless it is missing or infinitely growable.
fn limit_room(line: Line) -> Option<u32>
    ensures { room_in result ≡ limit_room line }
{
    if line.limit.is_none() || line.growable {
        return line.argument().map(|n| n.saturating_sub(line.limit_size()));
    }
    Some(0)
}

impl Letter {
    pub(crate) fn affected(self, line: Line) -> bool
        ensures { result ≡ (letter_of self).affected line }
    {
        match self {
            Letter::A => by_minimum(line, true, true, true),
            Letter::B => by_minimum(line, false, true, true),
            Letter::C => by_minimum(line, true, false, true),
            Letter::D => by_minimum(line, false, false, true),
            Letter::E => by_maximum(line, true, true, true),
            Letter::F => by_maximum(line, true, false, true),
        }
    }

    // Of the affected, those that take what remains before the others. Told by `by_maximum`, as `affected` is: see there.
    pub(crate) fn takes(self, line: Line) -> bool
        ensures { result ≡ (letter_of self).takes line }
    {
        match self {
            Letter::A | Letter::B => by_maximum(line, true, true, false),
            Letter::C | Letter::D => by_maximum(line, true, false, false),
            Letter::E | Letter::F => true,
        }
    }

    pub(crate) fn room(self, line: Line) -> Option<u32>
        ensures { room_in result ≡ (letter_of self).room line }
    {
        match self {
            Letter::E | Letter::F => limit_room(line),
            _ => line.base_room(),
        }
    }

    // The room for what remains, with a gain already there: no limit for bases, the argument for limits.
    pub(crate) fn rest_room(self, line: Line, gain: u32) -> Option<u32>
        ensures { room_in result ≡ (letter_of self).rest_room line gain }
    {
        let size = line.limit_size();
        let room = line
            .argument()
            .map(|n| n.saturating_sub(size).saturating_sub(gain));
        match self {
            Letter::E | Letter::F => room,
            _ => None,
        }
    }

    // The size that a contribution is measured against.
    pub fn present(self, line: Line) -> u32
        ensures { result ≡ (letter_of self).present line }
    {
        match self {
            Letter::A | Letter::B | Letter::C | Letter::D => line.base,
            Letter::E | Letter::F => line.limit_size(),
        }
    }

    // Whether it may change a line that gets no increase: (d) lifts limits, (e) and (f) take marks away.
    pub fn changes_unraised(self) -> bool
        ensures { result ≡ changes_unraised self }
    {
        matches!(self, Letter::D | Letter::E | Letter::F)
    }

    // What an increase makes of a line.
    pub(crate) fn grown(self, line: Line, increase: u32) -> Line
        requires { (letter_of self).present line + increase ≤ most }
        ensures { result ≡ (letter_of self).grown line increase }
    {
        match self {
            Letter::A | Letter::B | Letter::C => grown_base(line, increase),
            Letter::D => lines::settled(grown_base(line, increase)),
            Letter::E => grown_limit(line, increase, true),
            Letter::F => grown_limit(line, increase, false),
        }
    }
}

fn grown_base(line: Line, increase: u32) -> Line
    requires { line.base + increase ≤ most }
    ensures { result ≡ grown_base line increase }
{
    Line {
        base: line.base + increase,
        ..line
    }
}

// A missing limit becomes base plus increase, if there is one, and is then infinitely growable where the letter marks.
fn grown_limit(line: Line, increase: u32, marks: bool) -> Line
    requires { limit_size line + increase ≤ most }
    ensures { result ≡ grown_limit marks line increase }
{
    let (limit, growable) = match line.limit {
        None if increase == 0 => (None, false),
        None => (Some(line.base + increase), marks),
        Some(n) => (Some(n + increase), false),
    };
    Line {
        limit,
        growable,
        ..line
    }
}
