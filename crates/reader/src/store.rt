// Fixed memory for one sheet, as far as its bytes can matter: no sheet waits for a heap.
ghost use Rattle.std.specs.Prelude.{◌≡◌, ◌+◌, length};
ghost use Rattle.sheet.specs.Rule.{longest};

// One byte more than the longest sheet has. A longer input is answered from these bytes as it would be from all: `text-of-front` in the
// crate printed.
const MOST_BYTES: usize = sheet::LONGEST + 1;

// Zeros, for the sheet.
pub fn buffer() -> [u8; MOST_BYTES]
    ensures { longest + 1 ≡ length result }
{
    [0; MOST_BYTES]
}
