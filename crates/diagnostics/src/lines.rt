//! Keeps the lines of a script that are read, so that a bad one can be shown.
ghost use Rattle.std.specs.Prelude.{◌≡◌};

use crate::commands::{Bad, CALLS, COMMANDS, bad_part, field_from, grammar};
use crate::frame::{Finding, Source, framed};
use crate::looks::{Look, put_shown};
use crate::near::near_name;
use crate::tokens::part;
use byte_io::{Broken, ByteIn};
use script_text::{Command, Line, parse_line};
use std::alloc::{AllocError, Global};

const LONGEST_LINE: usize = 65536;

// Room for a line that has not ended, and the piece after it.
const MOST_KEPT: usize = 131072;

/// A source of bytes that keeps what was read last: the line that had not ended before the last read, and what that
/// read gave.
#[derive(Drop)]
pub struct KeptLines<I> {
    pub inner: I,
    kept: Kept,
}

// Bytes that were read, and where their lines are.
#[derive(Drop)]
struct Kept {
    bytes: Vec<u8>,
    // Where the last ended line ends, and how many lines have ended.
    ended: usize,
    count: u64,
    // How many lines ended before those that are kept.
    before: u64,
}

impl<I> KeptLines<I> {
    /// The source, before the first read. It keeps nothing if that is not wanted, or if memory runs out.
    pub fn new(alloc: Global, inner: I, is_wanted: bool) -> KeptLines<I>
        ensures { result.inner ≡ inner }
    {
        let most = if is_wanted { MOST_KEPT } else { 0 };
        let bytes = match Vec::with_capacity(alloc, most) {
            Ok(bytes) => bytes,
            Err(_) => Vec::new(alloc),
        };
        let kept = Kept {
            bytes,
            ended: 0,
            count: 0,
            before: 0,
        };
        KeptLines { inner, kept }
    }

    /// The first bad line among those that are kept, shown with what a line may say; none if none is bad. In a live run
    /// fewer commands are good.
    pub fn bad_line(&self, alloc: Global, is_live: bool) -> Result<Option<String>, AllocError> {
        let mut number = self.kept.before;
        let mut left = self.kept.count;
        for line in self.kept.bytes.as_slice().split(|byte| *byte == b'\n') {
            number = number.saturating_add(1);
            // (in a last line without a line feed, a return is part of the line)
            let line = if 0 < left { without_return(line) } else { line };
            left = left.saturating_sub(1);
            if let Some(finding) = fault_of_line(alloc, line, is_live)? {
                let source = Source {
                    name: "standard input",
                    text: line,
                    first_line: number,
                    look: Look::Word,
                };
                return match framed(alloc, &source, &finding) {
                    Ok(lines) => Ok(Some(lines)),
                    Err(refusal) => Err(refusal),
                };
            }
        }
        Ok(None)
    }
}

impl Kept {
    // Keeps a piece that was read, in place of the lines that ended before it.
    fn keep(&mut self, piece: &[u8]) {
        if self.bytes.capacity() == 0 {
            return;
        }
        if self.ended <= self.bytes.len() {
            self.bytes.drain(..self.ended);
        }
        self.before = self.before.saturating_add(self.count);
        self.ended = 0;
        self.count = 0;
        for byte in piece {
            if self.bytes.len() < self.bytes.capacity() {
                self.bytes.push_reserved(*byte);
            }
            if *byte == b'\n' {
                self.ended = self.bytes.len();
                self.count = self.count.saturating_add(1);
            }
        }
    }
}

impl<I: ByteIn> ByteIn for KeptLines<I> {
    ghost remaining = { λ s. I.remaining s.inner };

    ghost failed = { λ s. I.failed s.inner };

    fn read(&mut self, buffer: &mut [u8]) -> Result<usize, Broken> {
        match self.inner.read(buffer) {
            Ok(count) => {
                self.kept.keep(&buffer[..count]);
                Ok(count)
            }
            Err(broken) => Err(broken),
        }
    }

    fn failures(&self) -> u64 {
        self.inner.failures()
    }
}

fn without_return(line: &[u8]) -> &[u8] {
    match line {
        [before @ .., b'\r'] => before,
        _ => line,
    }
}

// What is wrong with a line, and where.
fn fault_of_line(alloc: Global, line: &[u8], is_live: bool) -> Result<Option<Finding>, AllocError> {
    let mut message = String::new(alloc);
    match put_fault(alloc, &mut message, line, is_live) {
        Ok(Some(place)) => Ok(Some(Finding { place, message })),
        Ok(None) => Ok(None),
        Err(refusal) => Err(refusal),
    }
}

// Says what is wrong with a line, and where; nothing for a good line.
fn put_fault(
    alloc: Global,
    message: &mut String,
    line: &[u8],
    is_live: bool,
) -> Result<Option<usize>, AllocError> {
    let word = field_from(line, 0);
    if line.len() > LONGEST_LINE {
        message.push_str("a line has at most 65536 bytes")?;
        return Ok(Some(word.start));
    }
    if is_good(alloc, line, is_live)? {
        return Ok(None);
    }
    let bytes = part(line, word);
    let words: &[&str] = if is_live { &CALLS } else { &COMMANDS };
    match grammar(bytes) {
        Some(text) if is_one_of(words, bytes) => {
            message.push_str("the line is: ")?;
            message.push_str(text)?;
            return Ok(Some(put_part(message, bad_part(alloc, line)?)?));
        }
        Some(_) => put_no_call(message, bytes)?,
        None => put_no_command(alloc, message, bytes, words)?,
    }
    Ok(Some(word.start))
}

// Says which part of a tag is bad, and returns its place.
fn put_part(message: &mut String, bad: Bad) -> Result<usize, AllocError> {
    if let Some((name, shape)) = bad.part {
        message.push_str(", where ")?;
        message.push_str(name)?;
        message.push_str(" is ")?;
        message.push_str(shape)?;
    }
    Ok(bad.place)
}

fn is_good(alloc: Global, line: &[u8], is_live: bool) -> Result<bool, AllocError> {
    match parse_line(alloc, line)? {
        Line::Nothing => Ok(true),
        Line::Bad => Ok(false),
        Line::Command(command) => Ok(!is_live || is_call(&command)),
    }
}

// Whether a command may stand in a live run.
fn is_call(command: &Command) -> bool {
    matches!(
        command,
        Command::Feed { .. } | Command::Close { .. } | Command::Set { .. } | Command::Read { .. }
    )
}

fn is_one_of(words: &[&str], word: &[u8]) -> bool {
    for other in words {
        if other.as_bytes() == word {
            return true;
        }
    }
    false
}

// The message that a live run does not have this command of scripts.
fn put_no_call(message: &mut String, word: &[u8]) -> Result<(), AllocError> {
    message.push_str("`")?;
    put_shown(message, word, Look::Word)?;
    message.push_str("` is no command of a live run; there are: ")?;
    put_list(message, &CALLS)
}

// The message that a word is no command, with the closest command, or all of them.
fn put_no_command(
    alloc: Global,
    message: &mut String,
    word: &[u8],
    words: &[&str],
) -> Result<(), AllocError> {
    message.push_str("there is no command `")?;
    put_shown(message, word, Look::Word)?;
    let near = match std::str::from_utf8(word) {
        Ok(text) => near_name(alloc, text, words)?,
        Err(_) => None,
    };
    match near {
        Some(name) => {
            message.push_str("`; is `")?;
            message.push_str(name)?;
            message.push_str("` meant?")
        }
        None => {
            message.push_str("`; there are: ")?;
            put_list(message, words)
        }
    }
}

fn put_list(message: &mut String, words: &[&str]) -> Result<(), AllocError> {
    let mut mark = "";
    for word in words {
        message.push_str(mark)?;
        message.push_str(word)?;
        mark = ", ";
    }
    Ok(())
}
