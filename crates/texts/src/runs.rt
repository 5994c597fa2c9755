// Runs of bytes of one kind: blanks and line ends, digits, the rest of a line.
ghost use Rattle.std.specs.Prelude.{◌≡◌, ◌≤◌, length};
ghost use Rattle.texts.specs.Text.{run_has};

#[derive(Clone, Copy)]
pub enum Run {
    Blanks,
    Digits,
    Line,
}

impl Run {
    pub fn has(self, byte: u8) -> bool
        ensures { result ≡ run_has self byte }
    {
        match self {
            Run::Blanks => matches!(byte, b' ' | b'\n'),
            Run::Digits => byte.is_ascii_digit(),
            Run::Line => byte != b'\n',
        }
    }

    // How many bytes the run has that `bytes` begins with; it may have none.
    pub fn count(self, bytes: &[u8]) -> usize
        ensures { result ≤ length bytes.now }
    {
        let found = bytes.iter().position(|byte| !self.has(*byte));
        found.unwrap_or(bytes.len())
    }
}
