//! The marks of a source. Each piece has those on its items.

use crate::unread::Unread;
use pipeline::MarkLine;
use std::alloc::{AllocError, Global};
use std::io;

// A longer line says nothing that it may.
const LONGEST_LINE: usize = 65_536;

// The most bytes that are held. If the marks on a piece's items have more, the rest of the run reads them.
const MOST: usize = 1 << 26;

/// How far the marks that a piece needs are known.
#[derive(Clone, Copy, Debug, PartialEq, Eq)]
pub enum Known {
    /// All of them are.
    All,
    /// More has to be read.
    Some,
    /// They cannot be known: a line says nothing that it may, or its item is before that of the line above, or a read
    /// failed. Whoever reads on learns which.
    Never,
}

// How far the lines were read.
#[derive(Clone, Copy, PartialEq, Eq)]
enum Reading {
    GoesOn,
    IsOver,
    IsStopped,
}

// A line that was looked at: a mark, or `until`.
#[derive(Clone, Copy)]
struct SeenLine {
    // The item of the whole tape that it speaks of.
    item: u64,
    // Where the line ends among the held bytes.
    end: usize,
}

/// What was read of the marks of a source, from the first on that a later piece may need. They are lines, like those of
/// a `MarkReader`.
#[derive(Drop)]
pub struct Marks {
    bytes: Vec<u8>,
    // The lines at the front of these bytes that were looked at, and how many came before.
    lines: Vec<SeenLine>,
    passed: u64,
    reading: Reading,
    failure: Option<io::Error>,
}

impl Marks {
    /// Nothing was read.
    pub fn new(alloc: Global) -> Marks {
        Marks {
            bytes: Vec::new(alloc),
            lines: Vec::new(alloc),
            passed: 0,
            reading: Reading::GoesOn,
            failure: None,
        }
    }

    /// These bytes were read. It fails only if the allocator refuses.
    pub(crate) fn push(&mut self, bytes: &[u8]) -> Result<(), AllocError> {
        self.bytes.extend_from_slice(bytes)
    }

    /// No more can be read. A failure says that a read failed.
    pub(crate) fn end(&mut self, failure: Option<io::Error>) -> Result<(), AllocError> {
        if failure.is_some() {
            self.failure = failure;
            self.reading = Reading::IsStopped;
            return Ok(());
        }
        let (start, end) = (self.looked_at(), self.bytes.len());
        if start < end {
            self.take(start, end, end)?;
        }
        if self.reading == Reading::GoesOn {
            self.reading = Reading::IsOver;
        }
        Ok(())
    }

    /// Whether all marks on items before this one are known. It looks at the read lines up to the first that speaks of
    /// this item or a later one, be it a mark or `until`.
    pub(crate) fn known(&mut self, item: u64) -> Result<Known, AllocError> {
        for _ in 0..u64::MAX {
            match self.reading {
                Reading::IsStopped => return Ok(Known::Never),
                Reading::IsOver => return Ok(Known::All),
                Reading::GoesOn => {}
            }
            if item <= self.least() && !self.lines.is_empty() {
                return Ok(Known::All);
            }
            if !self.take_next()? {
                return Ok(self.unfinished());
            }
        }
        Ok(Known::Never)
    }

    // What an unfinished line at the end of the bytes leaves unknown.
    fn unfinished(&mut self) -> Known {
        let length = self.bytes.len().saturating_sub(self.looked_at());
        if LONGEST_LINE < length || MOST <= self.bytes.len() {
            self.reading = Reading::IsStopped;
            return Known::Never;
        }
        Known::Some
    }

    // Looks at the next line if its end was read, and returns whether it was.
    fn take_next(&mut self) -> Result<bool, AllocError> {
        let start = self.looked_at();
        let rest = between(&self.bytes, start, usize::MAX);
        let Some(length) = rest.iter().position(|byte| *byte == b'\n') else {
            return Ok(false);
        };
        let line_end = start.saturating_add(length);
        self.take(start, line_end, line_end.saturating_add(1))?;
        Ok(true)
    }

    // Looks at a line. The bytes after it begin at `next`.
    fn take(&mut self, start: usize, end: usize, next: usize) -> Result<(), AllocError> {
        let line = between(&self.bytes, start, end);
        let line = match line.split_last() {
            Some((b'\r', line)) if end < next => line,
            _ => line,
        };
        match MarkLine::parse(line) {
            Some(said) if self.least() <= said.item() => self.lines.push(SeenLine {
                item: said.item(),
                end: next,
            })?,
            _ => self.reading = Reading::IsStopped,
        }
        Ok(())
    }

    // The first item that the next line may speak of.
    fn least(&self) -> u64 {
        match self.lines.last() {
            Some(line) => line.item,
            None => 0,
        }
    }

    // Where the lines that were looked at end.
    fn looked_at(&self) -> usize {
        self.end_of(self.lines.len())
    }

    // Where the first so many lines end.
    fn end_of(&self, count: usize) -> usize {
        match count.checked_sub(1) {
            Some(last) => match self.lines.get(last) {
                Some(line) => line.end,
                None => 0,
            },
            None => 0,
        }
    }

    // How many lines speak of items before this one.
    fn before(&self, item: u64) -> usize {
        self.lines.partition_point(|line| line.item < item)
    }

    /// The lines that speak of items from `from` to below `end`.
    pub(crate) fn lines(&self, alloc: Global, from: u64, end: u64) -> Result<Vec<u8>, AllocError> {
        let (from, end) = (
            self.end_of(self.before(from)),
            self.end_of(self.before(end)),
        );
        let mut lines = Vec::new(alloc);
        lines.extend_from_slice(between(&self.bytes, from, end))?;
        Ok(lines)
    }

    /// Drops the lines that speak of items before this one, except the last. The next may speak of none before that one's.
    pub(crate) fn forget(&mut self, item: u64) {
        let count = self.before(item).saturating_sub(1).min(self.lines.len());
        if count == 0 {
            return;
        }
        let end = self.end_of(count).min(self.bytes.len());
        self.bytes.drain(..end);
        self.lines.drain(..count);
        for line in &mut self.lines {
            line.end = line.end.saturating_sub(end);
        }
        self.passed = self.passed.saturating_add(count as u64);
    }

    /// What was read and not dropped, and how many lines came before it.
    pub fn into_rest(self) -> (Unread, u64) {
        let Marks {
            bytes,
            passed,
            failure,
            ..
        } = self;
        (Unread { bytes, failure }, passed)
    }
}

// The bytes from one place to another, as far as they exist.
fn between(bytes: &[u8], from: usize, to: usize) -> &[u8] {
    let to = to.min(bytes.len());
    let from = from.min(to);
    &bytes[from..to]
}
