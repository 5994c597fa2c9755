// Sizes sheets and prints their boards: `reader SHEET...`, each file in turn; with no name, or for `-`, the sheet on standard input.
// A refusal is an answer like a board and goes to standard output. The text of an answer is made whole before any of it is written
// (crate printed, where it is proved). What cannot be read or written is told in one line on standard error.
#![tactic(auto)]

mod store;
mod words;

ghost use Rattle.io.specs.Counts.{IsPrefixLen};

use input::End;
use printed::{MOST_MESSAGE, MOST_TEXT};
use std::env::{Env, FillError};
use std::fs::File;
use std::io::{Error, Read};
use words::Word;

// Standard output did not take all of an answer. It has been told, and no other answer follows.
#[derive(Clone, Copy)]
struct Untaken;

fn print_help(rt: &HostRuntime) -> Result<(), Untaken> {
    write_out(
        rt,
        b"usage: reader [SHEET]...\n\nSizes each sheet and prints its board: the tracks, the free space and the rounds, then for each\ntrack its number, base size and growth limit; or one line, 'refused NUMBER at PLACE'. With no\nSHEET, or where it is -, the sheet is read from standard input.\n\n  --      only names of sheets follow\n  --help  prints this\n",
    )
}

// To standard error. What that does not take is told nowhere.
fn write_error(rt: &HostRuntime, text: &[u8]) {
    rt.stderr().write_all(text).ok();
}

// A line about a name: the name in quotes, and the words behind it. Its memory is fixed, so that it is told where a heap is full too.
fn say(rt: &HostRuntime, name: &[u8], words: &[u8]) {
    let mut text = [0u8; MOST_MESSAGE];
    if let Some(length) = printed::print_message(name, words, &mut text) {
        write_error(rt, &text[..length]);
    }
}

// The same with the reason of a call that failed.
fn say_failure(rt: &HostRuntime, name: &[u8], error: Error) {
    let mut text = [0u8; MOST_MESSAGE];
    if let Some(length) = printed::print_message(name, b"", &mut text) {
        say_reason(rt, &text[..length], error);
    }
}

// A line: what failed, and why. Where there is no memory for the reason, the line says only that it did.
fn say_reason(rt: &HostRuntime, what: &[u8], error: Error) {
    match input::reason(rt.alloc(), error) {
        Ok(words) => write_reason(rt, what, words.as_bytes()),
        Err(_) => write_reason(rt, what, b"it has failed"),
    }
}

fn write_reason(rt: &HostRuntime, what: &[u8], words: &[u8]) {
    write_error(rt, what);
    write_error(rt, b": ");
    write_error(rt, words);
    write_error(rt, b"\n");
}

// Writes an answer out. What was not taken is told on standard error.
fn write_out(rt: &HostRuntime, text: &[u8]) -> Result<(), Untaken> {
    if let Err(error) = rt.stdout().write_all(text) {
        say_reason(rt, b"reader: standard output", error);
        return Err(Untaken);
    }
    Ok(())
}

// The text is made in fixed memory, so that no answer waits for a heap.
fn answer(rt: &HostRuntime, sheet: &[u8]) -> Result<(), Untaken> {
    let mut text = [0u8; MOST_TEXT];
    match printed::print_sheet(sheet, &mut text) {
        Some(length) => write_out(rt, &text[..length]),
        // Never: as many bytes are lent as any text takes.
        None => Err(Untaken),
    }
}

// The answer for one input. A sheet that cannot be read is told, and the next one has its turn.
fn answer_from<R: Read>(rt: &HostRuntime, from: &mut R, name: &[u8]) -> Result<(), Untaken> {
    let mut sheet = store::buffer();
    let read = input::read_from(from, &mut sheet);
    let length = read.length;
    match read.end {
        End::Whole => return answer(rt, &sheet[..length]),
        End::Failed(error) => say_failure(rt, name, error),
        End::GoneOn => say(rt, name, b": the input went on behind its end\n"),
    }
    Ok(())
}

fn answer_input(rt: &HostRuntime, name: &[u8]) -> Result<(), Untaken> {
    let mut stdin = rt.stdin();
    answer_from(rt, &mut stdin, name)
}

// The system takes a name of any bytes, and std's calls one that is text.
fn answer_file(rt: &HostRuntime, name: &[u8]) -> Result<(), Untaken> {
    let Ok(path) = std::str::from_utf8(name) else {
        say(rt, name, b": the name is not UTF-8\n");
        return Ok(());
    };
    match File::open(rt, path) {
        Ok(mut file) => answer_from(rt, &mut file, name),
        Err(error) => {
            say_failure(rt, name, error);
            Ok(())
        }
    }
}

// The word at i, whole at the start of the lent bytes, and its length: `are_taken` saw each of them.
fn word_at(rt: &HostRuntime, i: usize, into: &mut [u8]) -> usize
    ensures { IsPrefixLen result into.new }
{
    rt.arg(i, into).unwrap_or(0)
}

// Each sheet in turn, until one cannot be written out. Help and options were looked at before: what still begins with a dash is a name.
fn answer_all(rt: &HostRuntime, count: usize) -> Result<(), Untaken> {
    let mut is_past = false;
    let mut has_sheet = false;
    for i in 1..count {
        let mut buffer = io::buffer();
        let length = word_at(rt, i, &mut buffer);
        let word = &buffer[..length];
        match words::word_behind(is_past, word) {
            Word::Past => is_past = true,
            Word::Input => {
                answer_input(rt, word)?;
                has_sheet = true;
            }
            Word::Help | Word::Option | Word::Name => {
                answer_file(rt, word)?;
                has_sheet = true;
            }
        }
    }
    if !has_sheet {
        answer_input(rt, b"-")?;
    }
    Ok(())
}

// The words are looked at before any sheet is read: whether each is a name or an option that the reader takes. Where one is not, or help is
// asked for, this has said so.
fn are_taken(rt: &HostRuntime, count: usize) -> bool {
    let mut is_past = false;
    for i in 1..count {
        let mut buffer = io::buffer();
        let Ok(length) = rt.arg(i, &mut buffer) else {
            write_error(rt, b"reader: a name of at most 4096 bytes was expected\n");
            return false;
        };
        let word = &buffer[..length];
        match words::word_behind(is_past, word) {
            Word::Help => {
                print_help(rt).ok();
                return false;
            }
            Word::Option => {
                say(rt, word, b" is no option; --help says what is\n");
                return false;
            }
            Word::Past => is_past = true,
            Word::Input | Word::Name => (),
        }
    }
    true
}

// How many words the command line has, the program's own name among them. No room is lent, since none of them is read here.
fn arg_count(rt: &HostRuntime) -> usize {
    for i in 0..usize::MAX {
        if let Err(FillError::NotPresent) = rt.arg(i, &mut []) {
            return i;
        }
    }
    usize::MAX
}

fn main(rt: HostRuntime) {
    let count = arg_count(&rt);
    if are_taken(&rt, count) {
        answer_all(&rt, count).ok();
    }
}
