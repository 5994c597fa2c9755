// A message of the reader, on one line: its name, the name of a file in quotes, and words.
ghost use Rattle.std.specs.Prelude.{◌≡◌, ◌+◌, ◌*◌, ◌≤◌, ◌<◌, length};
ghost use mathlib.Core.List.{flat_map};
ghost use Rattle.printed.specs.Rule.{most_frame, is_plain, hex_digit, shown, message_text, message_call};
ghost use Rattle.printed.specs.Putting.{Putting};
ghost use Rattle.printed.specs.Answer.{print_leaves};

use crate::put::put_word;

// The reader's own name and two quotes, around the rest.
const MOST_FRAME: usize = 10;

const MOST_NAME: usize = 4_096;

const MOST_WORDS: usize = 128;

// Room for any message.
pub const MOST_MESSAGE: usize = MOST_FRAME + 4 * MOST_NAME + MOST_WORDS;

fn is_plain(byte: u8) -> bool
    ensures { result ≡ is_plain byte }
{
    byte >= 32 && byte != 127 && byte != b'\'' && byte != b'\\'
}

fn hex_digit(d: u8) -> u8
    requires { d < 16 }
    ensures { result ≡ hex_digit d }
{
    if d < 10 { 48 + d } else { 87 + d }
}

// A byte of a name, so that it breaks no line and ends no quote.
fn put_shown(at: usize, byte: u8, into: &mut [u8]) -> usize
    requires { at + 4 ≤ length into.old }
    ensures { Putting 4 at (shown byte) into.old into.new result }
{
    if is_plain(byte) {
        return put_word(at, &[byte], into);
    }
    let high = hex_digit(byte / 16);
    let low = hex_digit(byte % 16);
    put_word(at, &[b'\\', b'x', high, low], into)
}

fn put_name(at: usize, name: &[u8], into: &mut [u8]) -> usize
    requires { at + 4 * length name.now ≤ length into.old }
    ensures { Putting (4 * length name.now) at (flat_map shown name.now) into.old into.new result }
{
    let mut next = at;
    for byte in name {
        next = put_shown(next, *byte, into);
    }
    next
}

fn put_message(name: &[u8], words: &[u8], into: &mut [u8]) -> usize
    requires { most_frame + 4 * length name.now + length words.now ≤ length into.old }
    ensures { Putting (most_frame + 4 * length name.now + length words.now) 0 (message_text name.now words.now) into.old into.new result }
{
    let opened = put_word(0, b"reader: '", into);
    let named = put_name(opened, name, into);
    let closed = put_word(named, b"'", into);
    put_word(closed, words, into)
}

// The text is the first so many bytes. Where fewer are lent than a message may take, or its name or words are too long, there is no text, and
// the lent bytes keep what they hold.
pub fn print_message(name: &[u8], words: &[u8], into: &mut [u8]) -> Option<usize>
    ensures { print_leaves result into.new ≡ message_call name.now words.now into.old }
{
    if name.len() > MOST_NAME || words.len() > MOST_WORDS || into.len() < MOST_MESSAGE {
        return None;
    }
    Some(put_message(name, words, into))
}
