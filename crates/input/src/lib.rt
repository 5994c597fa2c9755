// Reading an open file into lent bytes: how much of it there is, and how reading went.
#![tactic(auto)]

mod reasons;

ghost use Rattle.std.specs.Prelude.{◌≡◌, IfErr};
ghost use Rattle.io.specs.Counts.{IsPrefixLen};
ghost use Rattle.input.specs.declared.End.{End};

pub use reasons::reason;
use std::io;

// How reading ended. No Result: the bytes before a failure count too, so that each end goes with a length.
#[derive(Clone, Copy)]
pub enum End {
    // The input ended, or the lent bytes did.
    Whole,
    // The input went on behind its end.
    GoneOn,
    // A read failed, and why.
    Failed(io::Error),
}

// How many bytes were read, and how reading ended.
#[derive(Clone, Copy)]
pub struct Read {
    pub length: usize,
    pub end: End,
}

// Reads until there are no more bytes, or no more that were lent. A read that fails is not tried again. A turn of the loop reads as
// many bytes as the system gives, so that no `for` counts them.
pub fn read_from<R: io::Read>(from: &mut R, into: &mut [u8]) -> Read
    ensures { IsPrefixLen result.length into.new }
{
    let mut length = 0;
    while length < into.len() {
        match from.read(&mut into[length..]) {
            Ok(0) => {
                let end = end_behind(from);
                return Read { length, end };
            }
            Ok(n) => length += n,
            Err(e) => {
                let end = end_told(Err(e));
                return Read { length, end };
            }
        }
    }
    let end = End::Whole;
    Read { length, end }
}

// A terminal goes on behind its end, and what was read of it is not all: one more byte is asked for.
fn end_behind<R: io::Read>(from: &mut R) -> End {
    let mut one_more = [0u8; 1];
    end_told(from.read(&mut one_more))
}

// What the last read tells: a failure and its reason, or whether there was a byte more.
fn end_told(last: io::Result<usize>) -> End
    ensures { IfErr last (λ e. result ≡ End.Failed e) }
{
    match last {
        Ok(0) => End::Whole,
        Ok(_) => End::GoneOn,
        Err(e) => End::Failed(e),
    }
}

// What no clause says: that memory suffices, the system's words, and how each way of ending is told.
#[cfg(test)]
mod tests {
    use super::*;

    #[test]
    fn tells_why_a_file_is_missing(rt: HostRuntime) -> io::Result<()> {
        let words = reason(rt.alloc(), io::Error::from_raw_os_error(2))?;
        assert_eq!(rt; words.as_str(), "No such file or directory");
        Ok(())
    }

    #[test]
    fn reads_to_the_end_or_until_the_room_is_full(rt: HostRuntime) {
        let mut into = [0u8; 4];
        let read = read_from(&mut (b"abc" as &[u8]), &mut into);
        assert!(rt; matches!(read.end, End::Whole) && read.length == 3);
        assert!(rt; into[0] == b'a' && into[2] == b'c');
        let full = read_from(&mut (b"abcdef" as &[u8]), &mut into);
        assert!(rt; matches!(full.end, End::Whole) && full.length == 4);
    }
}
