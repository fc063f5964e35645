//! What the outputs of a run hold that did not come to its end.

use crate::ends::Ends;
use crate::lengths::{length_of, length_of_output, size_at, tags_of};
use crate::uncut::Uncut;
use flowgraph::{BlockId, Valid};
use kinds::Kind;
use std::alloc::Global;
use std::fs;
use std::fs::File;
use std::io::Read;

// How many bytes are read at once.
const PIECE: usize = 65_536;

/// How much of the outputs of a sink stands, in whole items and lines.
#[derive(Clone, Copy, Debug, PartialEq, Eq)]
pub struct Held {
    pub items: u64,
    /// How many bytes the lines of the tags on these items have.
    pub tag_bytes: u64,
}

/// How much of a sink's outputs a run may continue, if they are beginnings of what the whole run writes. Lines of tags
/// come in the order of their items. So all tags are there on items before the one that the last whole line names.
/// Nothing tells whether a tag of this item, or of a later one, is missing: items are written apart from their tags.
pub fn held_of(
    rt: &HostRuntime,
    graph: &Valid<Kind>,
    ends: &Ends<'_>,
    sink: BlockId,
) -> Result<Held, Uncut> {
    let items = length_of_output(rt, graph, ends, sink)? / size_at(graph, sink).max(1);
    let Some(end) = tags_of(graph, ends, sink) else {
        return Ok(Held {
            items,
            tag_bytes: 0,
        });
    };
    let mut lines = Lines::of(items);
    if length_of(rt, end, Uncut::NoFileOut(sink))?.is_some() {
        // (nothing is known of one that cannot be read)
        if let Ok(file) = fs::open(rt, end.path) {
            lines.read(rt.alloc(), file)?;
        }
    }
    Ok(lines.held)
}

// What has come of a line.
#[derive(Clone, Copy, Debug, PartialEq, Eq)]
enum Came {
    Nothing,
    // `@` and the digits of this number, which is the item.
    Item(u64),
    // All up to `:`, or more.
    Tag(u64),
}

// Lines of tags, as far as they were read.
#[derive(Drop)]
struct Lines {
    // How many items the output has.
    items: u64,
    // How many bytes were read, and where the next line begins.
    read: u64,
    begin: u64,
    came: Came,
    held: Held,
}

impl Lines {
    // No line yet of the tags on so many items.
    fn of(items: u64) -> Lines {
        Lines {
            items,
            read: 0,
            begin: 0,
            came: Came::Nothing,
            held: Held {
                items: 0,
                tag_bytes: 0,
            },
        }
    }

    // Reads the lines of a file, up to its end or to a line that is not one. A failed read is an end too.
    fn read(&mut self, alloc: Global, file: File) -> Result<(), Uncut> {
        let mut file = file;
        let mut piece = vec![in alloc; 0; PIECE]?;
        for _ in 0..u64::MAX {
            let count = match file.read(&mut piece) {
                Ok(count) => count,
                Err(_) => 0,
            };
            if count == 0 || !self.take_all(piece.get(..count).unwrap_or(&[])) {
                return Ok(());
            }
        }
        Ok(())
    }

    // Takes the bytes that come, and tells whether more may follow.
    fn take_all(&mut self, bytes: &[u8]) -> bool {
        for byte in bytes {
            if !self.take(*byte) {
                return false;
            }
        }
        true
    }

    fn take(&mut self, byte: u8) -> bool {
        self.read = self.read.saturating_add(1);
        match (self.came, byte) {
            (Came::Nothing, b'@') => self.came = Came::Item(0),
            (Came::Item(item), b'0'..=b'9') => match with_digit(item, byte) {
                Some(item) => self.came = Came::Item(item),
                None => return false,
            },
            (Came::Item(item), b':') => self.came = Came::Tag(item),
            (Came::Tag(item), b'\n') => return self.end_line(item),
            (Came::Tag(_), _) => {}
            _ => return false,
        }
        true
    }

    // Takes the end of a line of the tag on an item.
    fn end_line(&mut self, item: u64) -> bool {
        if item < self.held.items {
            return false;
        }
        let item = item.min(self.items);
        if self.held.items < item {
            self.held = Held {
                items: item,
                tag_bytes: self.begin,
            };
        }
        self.begin = self.read;
        self.came = Came::Nothing;
        item < self.items
    }
}

fn with_digit(number: u64, digit: u8) -> Option<u64> {
    number
        .checked_mul(10)?
        .checked_add(u64::from(digit.saturating_sub(b'0')))
}
