//! The tables and keys of a graph file, each with its place in the text. A text that is not TOML has some too.

use crate::tokens::{Mark, Span, Token, blank_end, first_place, next_token, part};
use graph_file::FilePlace;
use std::alloc::{AllocError, Global};

/// A table, or a key of one.
#[derive(Clone, Copy)]
pub(crate) struct Entry {
    /// The table.
    pub table: FilePlace,
    /// The first word of a key, without quotes; none if the table itself begins here.
    pub key: Option<Span>,
    /// Where it begins.
    pub start: usize,
    /// Where the value of a key begins.
    pub value: usize,
}

// What is read.
#[derive(Clone, Copy, PartialEq, Eq)]
enum Step {
    // The beginning of a line of the document.
    Line,
    // A header, after its first bracket.
    Header,
    // A key, up to its `=`.
    Key,
    // A value, or what follows a header.
    Value,
}

// The words of a key or a header.
#[derive(Clone, Copy)]
struct Path {
    count: usize,
    start: usize,
    first: Span,
    second: Span,
    // Whether it is a header of an array of tables.
    is_array: bool,
}

#[derive(Drop)]
struct Scan<'a> {
    text: &'a [u8],
    entries: Vec<Entry>,
    step: Step,
    path: Path,
    // How many brackets of a value are open.
    depth: usize,
    // The table of the keys that follow: that of the last header; none if that is a table of another sort.
    table: Option<FilePlace>,
    // The table of an inline array, at depth 2.
    inner: Option<FilePlace>,
    // The key of the document whose value is being read, if that may be an array of such tables.
    array: Option<Span>,
    // How many tables of each array have come.
    blocks: usize,
    connections: usize,
    feeds: usize,
}

const NOWHERE: Span = Span { start: 0, end: 0 };

const NO_PATH: Path = Path {
    count: 0,
    start: 0,
    first: NOWHERE,
    second: NOWHERE,
    is_array: false,
};

/// The tables and keys of a text, in its order.
pub(crate) fn entries_of(alloc: Global, text: &[u8]) -> Result<Vec<Entry>, AllocError> {
    let mut scan = Scan {
        text,
        entries: Vec::new(alloc),
        step: Step::Line,
        path: NO_PATH,
        depth: 0,
        table: Some(FilePlace::Top),
        inner: None,
        array: None,
        blocks: 0,
        connections: 0,
        feeds: 0,
    };
    let mut place = first_place(text);
    for _ in 0..text.len() {
        let Some(token) = next_token(text, place) else {
            break;
        };
        place = token.whole.end;
        match scan.step {
            Step::Line => scan.begin(token),
            Step::Header => scan.go_on_header(token)?,
            Step::Key => scan.go_on_key(token)?,
            Step::Value => scan.go_on_value(token)?,
        }
    }
    Ok(scan.entries)
}

impl Scan<'_> {
    // Takes the first token of a line of the document.
    fn begin(&mut self, token: Token) {
        self.path = NO_PATH;
        self.path.start = token.whole.start;
        match token.mark {
            Mark::OpenArray => self.step = Step::Header,
            Mark::Word => {
                self.push_word(token);
                self.step = Step::Key;
            }
            _ => {}
        }
    }

    fn push_word(&mut self, token: Token) {
        match self.path.count {
            0 => {
                // (a header begins at its bracket)
                if self.step != Step::Header {
                    self.path.start = token.whole.start;
                }
                self.path.first = token.inner;
            }
            1 => self.path.second = token.inner,
            _ => {}
        }
        self.path.count = self.path.count.saturating_add(1);
    }

    fn go_on_header(&mut self, token: Token) -> Result<(), AllocError> {
        match token.mark {
            Mark::OpenArray => self.path.is_array = true,
            Mark::Word => self.push_word(token),
            Mark::Close => {
                self.end_header()?;
                self.step = Step::Value;
            }
            Mark::Newline => self.step = Step::Line,
            _ => {}
        }
        Ok(())
    }

    // Takes a header, with all its words. If it is of no table of an array, it is a key of the document, or of the last
    // such table.
    fn end_header(&mut self) -> Result<(), AllocError> {
        let Path {
            count,
            start,
            first,
            second,
            is_array,
        } = self.path;
        self.table = None;
        if count == 1 && is_array {
            if let Some(table) = self.next_table(first) {
                self.table = Some(table);
                return self.push(table, None, start, start);
            }
        }
        if count == 1 {
            return self.push(FilePlace::Top, Some(first), start, start);
        }
        match self.last_table(first) {
            Some(table) => self.push(table, Some(second), start, start),
            None => self.push(FilePlace::Top, Some(first), start, start),
        }
    }

    fn go_on_key(&mut self, token: Token) -> Result<(), AllocError> {
        match token.mark {
            Mark::Word => self.push_word(token),
            Mark::Equals => {
                let value = blank_end(self.text, token.whole.end);
                self.end_key(value)?;
                self.step = Step::Value;
            }
            Mark::Close => {
                self.depth = self.depth.saturating_sub(1);
                self.inner = None;
                self.step = Step::Value;
            }
            Mark::Newline if self.depth == 0 => self.step = Step::Line,
            _ => {}
        }
        Ok(())
    }

    // Takes a key, with all its words. Its value begins at `value`.
    fn end_key(&mut self, value: usize) -> Result<(), AllocError> {
        let Path {
            count,
            start,
            first,
            ..
        } = self.path;
        let table = if self.depth == 0 {
            self.array = if count == 1 && self.table == Some(FilePlace::Top) {
                Some(first)
            } else {
                None
            };
            self.table
        } else {
            self.inner
        };
        match table {
            Some(table) => self.push(table, Some(first), start, value),
            None => Ok(()),
        }
    }

    fn go_on_value(&mut self, token: Token) -> Result<(), AllocError> {
        match token.mark {
            Mark::Newline if self.depth == 0 => {
                self.array = None;
                self.step = Step::Line;
            }
            Mark::OpenArray | Mark::OpenTable => {
                if self.depth == 1 && token.mark == Mark::OpenTable {
                    self.begin_table(token)?;
                }
                self.depth = self.depth.saturating_add(1);
            }
            Mark::Close => {
                self.depth = self.depth.saturating_sub(1);
                if self.depth < 2 {
                    self.inner = None;
                }
            }
            Mark::Comma if self.depth == 2 && self.inner.is_some() => {
                self.path = NO_PATH;
                self.step = Step::Key;
            }
            _ => {}
        }
        Ok(())
    }

    // Takes the beginning of a table in an array of the document.
    fn begin_table(&mut self, token: Token) -> Result<(), AllocError> {
        let Some(key) = self.array else {
            return Ok(());
        };
        let Some(table) = self.next_table(key) else {
            return Ok(());
        };
        self.inner = Some(table);
        self.path = NO_PATH;
        self.step = Step::Key;
        self.push(table, None, token.whole.start, token.whole.start)
    }

    // The next table of the array at a key.
    fn next_table(&mut self, key: Span) -> Option<FilePlace> {
        match part(self.text, key) {
            b"block" => {
                let number = self.blocks;
                self.blocks = number.saturating_add(1);
                Some(FilePlace::Block(number))
            }
            b"connect" => {
                let number = self.connections;
                self.connections = number.saturating_add(1);
                Some(FilePlace::Connect(number))
            }
            b"feed" => {
                let number = self.feeds;
                self.feeds = number.saturating_add(1);
                Some(FilePlace::Feed(number))
            }
            _ => None,
        }
    }

    // The last table so far of the array at a key.
    fn last_table(&self, key: Span) -> Option<FilePlace> {
        match part(self.text, key) {
            b"block" => Some(FilePlace::Block(self.blocks.checked_sub(1)?)),
            b"connect" => Some(FilePlace::Connect(self.connections.checked_sub(1)?)),
            b"feed" => Some(FilePlace::Feed(self.feeds.checked_sub(1)?)),
            _ => None,
        }
    }

    fn push(
        &mut self,
        table: FilePlace,
        key: Option<Span>,
        start: usize,
        value: usize,
    ) -> Result<(), AllocError> {
        let entry = Entry {
            table,
            key,
            start,
            value,
        };
        Ok(self.entries.push(entry)?)
    }
}
