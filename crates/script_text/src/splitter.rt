//! Lines of bytes that come in pieces.
ghost use Rattle.std.specs.Prelude.{◌≡◌, ◌≢◌, ℕ, ◌+◌, ◌-◌, ◌^◌, ◌<◌, ◌≤◌, [], ◌++◌, length, take, drop, slice_index, slice_range, vec_len, IfOk};
ghost use Rattle.std.specs.Option.{option_map, option_to_list};
ghost use Rattle.script_text.specs.Lines.{line_feed, without_return};

use crate::bytes::position_from;
use std::alloc::{AllocError, Global};
use std::fmt;
use std::marker::Model;

const LINE_FEED: u8 = b'\n';

const CARRIAGE_RETURN: u8 = b'\r';

const LONGEST_LINE: usize = 65536;

// So many bytes are held at most. A line and a piece are less than half as long, so that fewer bytes are moved than
// were given up.
const MOST_HELD: usize = 196608;

/// What there is of the first line.
#[derive(Clone, Copy, Debug, PartialEq, Eq)]
pub enum FirstLine {
    /// A whole line, which `line` gives.
    Whole,
    /// None: the first line is longer than a line may be, whatever comes after it.
    TooLong,
    /// None: the end of the first line has not come yet.
    Unfinished,
}

/// Bytes that come in pieces, and the lines that are taken off their front. All memory is there from the start. A
/// contract sees the bytes that are left, the line that was taken last, and how many were taken.
#[derive(Drop)]
pub struct LineSplitter {
    buffer: Vec<u8>,
    line_start: usize,
    line_end: usize,
    // where the bytes that are left begin, and up to where they were searched
    start: usize,
    searched: usize,
    taken: u64,
}

impl fmt::Debug for LineSplitter {
    fn fmt<W: fmt::Write>(&self, f: &mut fmt::Formatter<W>) -> fmt::Result {
        f.debug_struct("LineSplitter").finish_non_exhaustive()
    }
}

impl Model for LineSplitter {
    ghost use Rattle.std.specs.Prelude.{◌≢◌, ℕ, ◌<◌, ◌≤◌, drop, slice_index, slice_range, vec_len};
    ghost use Rattle.std.specs.Prelude.{vec_capacity};
    ghost use Rattle.script_text.specs.Lines.{line_feed};
    ghost use Rattle.script_text.specs.Splits.{Split, most_held};

    ghost Value = { Split };

    ghost view = { λ s. record {
      rest = drop s.start s.buffer.items;
      line = slice_range s.buffer.items s.line_start s.line_end;
      taken = s.taken;
    } };

    ghost invariant = { λ s. (s.line_start ≤ s.line_end) × (s.line_end ≤ s.start) × (s.start ≤ s.searched) × (s.searched ≤ vec_len s.buffer)
        × ((k : ℕ) → s.start ≤ k → k < s.searched → slice_index s.buffer.items k ≢ line_feed)
        × (vec_len s.buffer ≤ most_held) × (most_held ≤ vec_capacity s.buffer) };
}

impl LineSplitter {
    ghost use Rattle.script_text.specs.Splits.{Takes, IsUnfinished, most_held};
    ghost use Rattle.script_text.specs.Lines.{lines_of};

    /// No bytes, of which no line was taken.
    pub fn new(alloc: Global) -> Result<LineSplitter, AllocError>
        ensures { IfOk result (λ lines. lines ≡ record { rest = []; line = []; taken = 0 }) }
    {
        let buffer = Vec::with_capacity(alloc, MOST_HELD)?;
        Ok(LineSplitter {
            buffer,
            line_start: 0,
            line_end: 0,
            start: 0,
            searched: 0,
            taken: 0,
        })
    }

    /// Adds the next piece of the bytes. The line that was taken last is gone.
    pub fn push(&mut self, piece: &[u8])
        requires { length self.old.rest + length piece.now ≤ most_held }
        ensures rest { self.new.rest ≡ self.old.rest ++ piece.now }
        ensures line { self.new.line ≡ [] }
        ensures taken { self.new.taken ≡ self.old.taken }
    {
        self.line_start = 0;
        self.line_end = 0;
        if piece.len() > MOST_HELD - self.buffer.len() {
            self.buffer.drain(..self.start);
            self.searched -= self.start;
            self.start = 0;
        }
        match self.buffer.extend_from_slice(piece) {
            Ok(()) => {}
            Err(_) => unreachable!(),
        }
    }

    /// Takes the first line off the bytes, where its end has come.
    pub fn take_line(&mut self) -> FirstLine
        requires { self.old.taken < 2 ^ 64 - 1 }
        ensures { Takes result self.old self.new }
    {
        let end = position_from(self.buffer.as_slice(), self.searched, LINE_FEED);
        self.searched = end;
        let length = length_without_return(&self.buffer[self.start..end]);
        if end < self.buffer.len() {
            self.line_start = self.start;
            self.line_end = self.start + length;
            self.start = end + 1;
            self.searched = end + 1;
            self.taken += 1;
            FirstLine::Whole
        } else if length > LONGEST_LINE {
            FirstLine::TooLong
        } else {
            FirstLine::Unfinished
        }
    }

    /// The line that was taken last.
    pub fn line(&self) -> &[u8]
        ensures { result.now ≡ self.now.line }
    {
        &self.buffer[self.line_start..self.line_end]
    }

    /// The last line of all, at the end of the input: the bytes that are left, unless there are none.
    pub fn last_line(&self) -> Option<&[u8]>
        requires { IsUnfinished self.now.rest }
        ensures { option_to_list (option_map (λ line. line.now) result) ≡ lines_of self.now.rest }
    {
        if self.start < self.buffer.len() {
            Some(&self.buffer[self.start..])
        } else {
            None
        }
    }

    /// How many lines were taken.
    pub fn taken(&self) -> u64
        ensures { result ≡ self.now.taken }
    {
        self.taken
    }
}

// How many bytes are left without a carriage return at the end.
fn length_without_return(bytes: &[u8]) -> usize
    ensures within { result ≤ length bytes.now }
    ensures value { take result bytes.now ≡ without_return bytes.now }
{
    let length = bytes.len();
    if length == 0 {
        return 0;
    }
    if bytes[length - 1] == CARRIAGE_RETURN {
        length - 1
    } else {
        length
    }
}
