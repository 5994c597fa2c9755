// Pieces of text put into lent bytes from a place on. Each asks for the room that it may take, and tells the place behind the piece.
// By hand, and no `write!`: what is put is the rule's text byte for byte, into bytes that are lent.
// Place and bytes stay two arguments: beside a `&mut` no field of a struct can promise that the place is within them.
ghost use Rattle.std.specs.Prelude.{◌+◌, ◌≤◌, ◌++◌, ◌∷◌, [], length};
ghost use Rattle.printed.specs.Rule.{most_digits, most_cell, decimal, signed};
ghost use Rattle.printed.specs.Putting.{Putting};

// The digits of the largest number.
const MOST_DIGITS: usize = 20;

pub fn put_word(at: usize, text: &[u8], into: &mut [u8]) -> usize
    requires { at + length text.now ≤ length into.old }
    ensures { Putting (length text.now) at text.now into.old into.new result }
{
    let next = at + text.len();
    into[at..next].copy_from_slice(text);
    next
}

pub fn put_number(at: usize, n: u64, into: &mut [u8]) -> usize
    requires { at + most_digits ≤ length into.old }
    ensures { Putting most_digits at (decimal n) into.old into.new result }
{
    // Fixed memory, without a heap; the kit's `decimal` fills lent bytes.
    let mut digits = [0u8; MOST_DIGITS];
    let count = io::decimal(n, &mut digits);
    put_word(at, &digits[..count], into)
}

// A number, and one byte behind it.
pub fn put_cell(at: usize, n: u64, end: u8, into: &mut [u8]) -> usize
    requires { at + most_cell ≤ length into.old }
    ensures { Putting most_cell at (decimal n ++ (end ∷ [])) into.old into.new result }
{
    let next = put_number(at, n, into);
    put_word(next, &[end], into)
}

pub fn put_signed(at: usize, n: i32, into: &mut [u8]) -> usize
    requires { at + most_cell ≤ length into.old }
    ensures { Putting most_cell at (signed n) into.old into.new result }
{
    let magnitude = u64::from(n.unsigned_abs());
    if n < 0 {
        let next = put_word(at, b"-", into);
        return put_number(next, magnitude, into);
    }
    put_number(at, magnitude, into)
}
