// The file of cases that the program's first argument names, read whole into memory that the program lends.
ghost use Rattle.std.specs.Prelude.{◌≡◌, length, IfSome};
ghost use Rattle.io.specs.Counts.{IsPrefixLen};

use crate::report::print_stop;
use input::End;
use std::env::Env;
use std::fs::File;
use std::io::Error;
use texts::{Fault, Stop};

// More than any file of cases has, so that each can grow: one that has as many is too long. The memory is fixed, and a file is
// told as too long at a place that does not hang on how much of it the system gives.
pub(crate) const MOST_BYTES: usize = 1048576;

// Zeros, for the text. The `ensures` gives only the length, which lending the array as a slice needs.
pub fn buffer() -> [u8; MOST_BYTES]
    ensures { 1048576 ≡ length result }
{
    [0; MOST_BYTES]
}

// A file that is asked for: by which program, and by which name, which need not be text.
#[derive(Clone, Copy)]
struct Asked<'a> {
    rt: &'a HostRuntime,
    program: &'a [u8],
    path: &'a [u8],
}

impl Asked<'_> {
    // A line on standard error: the program, the file, and what is told of it.
    fn tell(&self, words: &str) {
        let rt = self.rt;
        let _ = rt.stderr().write_all(self.program);
        let _ = eprint!(rt; ": ");
        let _ = rt.stderr().write_all(self.path);
        let _ = eprintln!(rt; ": {words}");
    }

    // Why a call on the file failed. Where there is no memory for the reason, the line says only that it did.
    fn tell_failure(&self, error: Error) {
        match input::reason(self.rt.alloc(), error) {
            Ok(words) => self.tell(words.as_str()),
            Err(_) => self.tell("it cannot be read"),
        }
    }

    // Bytes that are full may not be all of the file.
    fn read(&self, file: &mut File, text: &mut [u8]) -> Option<usize>
        ensures { IfSome result (λ length. IsPrefixLen length text.new) }
    {
        let most = text.len();
        let read = input::read_from(file, text);
        let at = read.length;
        match read.end {
            End::Whole if at < most => return Some(at),
            End::Failed(error) => self.tell_failure(error),
            _ => {
                let fault = Fault::TooLong;
                print_stop(self.rt, self.program, Stop { at, fault });
            }
        }
        None
    }

    // The system takes a name of any bytes, and std's calls one that is text.
    fn load(&self, text: &mut [u8]) -> Option<usize>
        ensures { IfSome result (λ length. IsPrefixLen length text.new) }
    {
        let Ok(name) = std::str::from_utf8(self.path) else {
            self.tell("the name is not UTF-8");
            return None;
        };
        match File::open(self.rt, name) {
            Ok(mut file) => self.read(&mut file, text),
            Err(error) => {
                self.tell_failure(error);
                None
            }
        }
    }
}

// How many bytes the whole file has. One that cannot be read whole is told on standard error.
pub fn load(rt: &HostRuntime, program: &[u8], text: &mut [u8]) -> Option<usize>
    ensures { IfSome result (λ length. IsPrefixLen length text.new) }
{
    let mut path = io::buffer();
    let Ok(length) = rt.arg(1, &mut path) else {
        let _ = rt.stderr().write_all(program);
        let _ = eprintln!(rt; ": a file name of at most 4096 bytes was expected");
        return None;
    };
    let path = &path[..length];
    Asked { rt, program, path }.load(text)
}
