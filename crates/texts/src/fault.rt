// What is wrong with a text, and where.
use std::fmt;

// The faults that only a crate above meets stand here too, since a text is read up to whichever comes first.
#[derive(Clone, Copy)]
pub enum Fault {
    // No digit, or a digit with something else than a blank after it.
    Number,
    // A number that no u32 holds.
    Large,
    // A mark that is not 0 or 1.
    Mark,
    // A number before an x that no u32 holds, or 0.
    Times,
    // Not two digits of a byte in hex.
    Byte,
    // A list with more entries than are kept, with how many are.
    List(usize),
    // A group that goes on behind the last entry of its list.
    Over,
    // A number that names no call.
    Call,
    // The end of the text within a case.
    Early,
    // Something else than the # that begins a case.
    Case,
    // Nothing but blanks.
    NoCase,
    // More bytes than are read.
    TooLong,
}

impl fmt::Display for Fault {
    fn fmt<W: fmt::Write>(&self, f: &mut fmt::Formatter<W>) -> fmt::Result {
        match *self {
            Fault::Number => write!(f, "a number was expected"),
            Fault::Large => write!(f, "the number is over 4294967295"),
            Fault::Mark => write!(f, "0 or 1 was expected"),
            Fault::Times => write!(f, "1 to 4294967295 was expected before the x"),
            Fault::Byte => write!(f, "two digits of 0 to 9 and A to F were expected"),
            Fault::List(most) => write!(f, "the list has over {most} entries"),
            Fault::Over => write!(f, "the list goes on behind its last entry"),
            Fault::Call => write!(f, "the number of a call was expected"),
            Fault::Early => write!(f, "the file ends early"),
            Fault::Case => write!(f, "the # of a case was expected"),
            Fault::NoCase => write!(f, "the file has no case"),
            Fault::TooLong => write!(f, "the file is too long"),
        }
    }
}

// The first fault of a text, and its place.
#[derive(Clone, Copy)]
pub struct Stop {
    pub at: usize,
    pub fault: Fault,
}

impl fmt::Display for Stop {
    fn fmt<W: fmt::Write>(&self, f: &mut fmt::Formatter<W>) -> fmt::Result {
        let at = self.at;
        let fault = self.fault;
        write!(f, "byte {at}: {fault}")
    }
}
