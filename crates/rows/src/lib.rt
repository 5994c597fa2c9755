// A record as a row of numbers: read off the bytes, looked through for faults, and put back into bytes (the rule is that of
// `records`). Its functions are for the sheet, the fault of a space's row also for the C face: each says what it asks. Bytes and place stay two
// arguments: the rule's `row_at` and `row_fault` name both.
#![tactic(auto)]

mod item;
mod space;
mod track;

ghost use Rattle.std.specs.Prelude.{◌≡◌, ℕ, ◌∷◌, ◌+◌, ◌≤◌, ◌<◌, List, length};
ghost use Rattle.laws.specs.Put.{put};
ghost use Rattle.records.specs.Rule.{Part, Row, record_size, row_at, row_bytes, row_fault, fine, four_bytes};
ghost use Rattle.records.specs.Answer.{fault_of, last_place};
ghost use Rattle.rows.specs.Shapes.{width};

use records::Refusal;
use records::numbers::{put_byte, put_four};

// Rows of numbers, and no structs: C lends them so (`torrivask_read_sheet`, `torrivask_write_sheet`), and the promises of `sheet::read` and of
// `layout::lay_out` name them.
pub type TrackRow = [u32; 4];

pub type ItemRow = [u32; 7];

// The bytes of each part of a record: a tag and a u32, a byte, two u16.
const TAGGED_SIZE: usize = 5;

const MARK_SIZE: usize = 1;

const PAIR_SIZE: usize = 4;

// A row of numbers that says a record.
pub trait RecordRow: Copy {
    // The parts of the record, and the row's numbers in order.
    ghost parts: { List Part };

    ghost numbers: { Self → Row };

    // The bytes of the record.
    ghost SIZE: { ℕ };

    const SIZE: usize;

    // The row of the record at a place.
    fn read(bytes: &[u8], at: usize) -> Self
        requires { at + record_size parts ≤ length bytes.now }
        ensures { numbers result ≡ row_at parts bytes.now at };

    // What is wrong with the row of a record at a place. The look tells how many numbers the row has too, which a walk over rows
    // of any record does not know.
    fn fault(self, at: usize) -> Result<(), Refusal>
        requires { at + record_size parts ≤ last_place }
        ensures { (fault_of result ≡ row_fault parts (numbers self) at) × (length (numbers self) ≡ width parts) };

    // Puts the record into bytes. A row that is put has no fault, so that each tag fits its byte.
    fn put(self, bytes: &mut [u8], at: usize)
        requires { (at + record_size parts ≤ length bytes.old) × (row_fault parts (numbers self) at ≡ fine) }
        ensures { (bytes.new ≡ put at (row_bytes parts (numbers self)) bytes.old) × (length (numbers self) ≡ width parts) };

    ghost size_is: { SIZE ≡ record_size parts };
}

fn put_tagged(tag: u32, n: u32, bytes: &mut [u8], at: usize)
    requires { (at + 5 ≤ length bytes.old) × (tag < 256) }
    ensures { bytes.new ≡ put at (tag ∷ four_bytes n) bytes.old }
{
    put_byte(tag, bytes, at);
    put_four(n, bytes, at + 1);
}
