// A text, and the place in it where reading stands.
ghost use Rattle.std.specs.Prelude.{◌≡◌, ◌≤◌, ◌<◌, length, IfSome};
ghost use Rattle.texts.specs.Text.{is_end};

use crate::fault::{Fault, Stop};
use crate::runs::Run;

#[derive(Clone, Copy)]
pub struct Text<'a> {
    pub bytes: &'a [u8],
    pub at: usize,
    ghost within: { at ≤ length bytes.now },
}

impl<'a> Text<'a> {
    ghost use Rattle.texts.specs.Reading.{MovesOn};

    pub fn new(bytes: &'a [u8]) -> Text<'a>
        ensures text { result.bytes ≡ bytes.entry }
        ensures place { result.at ≡ 0 }
    {
        Text { bytes, at: 0 }
    }

    // The text stops here, at this fault.
    pub fn stop(&self, fault: Fault) -> Stop
        ensures { result.at ≡ self.now.at }
    {
        Stop { at: self.at, fault }
    }

    // The byte at which the text stands, or nothing at its end.
    pub fn ahead(&self) -> Option<u8>
        ensures { IfSome result (λ byte. self.now.at < length self.now.bytes.now) }
    {
        self.bytes.get(self.at).copied()
    }

    // On behind the next bytes of one kind, which are handed on.
    pub fn take(&mut self, run: Run) -> &'a [u8]
        ensures { MovesOn self.old self.new }
    {
        let rest = &self.bytes[self.at..];
        let count = run.count(rest);
        self.at += count;
        &rest[..count]
    }

    // On to the next byte that is no blank and no line end, and its place.
    pub fn start(&mut self) -> usize
        ensures onward { MovesOn self.old self.new }
        ensures place { result ≡ self.new.at }
    {
        self.take(Run::Blanks);
        self.at
    }

    // A number ends at a blank, a line end or the end of the text.
    pub(crate) fn is_end(&self) -> bool
        ensures { result ≡ is_end self.now.bytes.now self.now.at }
    {
        self.at >= self.bytes.len() || Run::Blanks.has(self.bytes[self.at])
    }
}
