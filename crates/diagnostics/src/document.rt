//! A graph file that is TOML, with the places of its tables and keys.

use crate::entries::{Entry, entries_of};
use crate::frame::Finding;
use crate::tokens::{Mark, line_of, next_token, part, rest};
use graph_file::FilePlace;
use kind_schema::Key;
use kind_schema::table::{text_at, values_at};
use kinds::KindName;
use std::alloc::{AllocError, Global};
use toml::{Table, Value};

#[derive(Drop)]
pub(crate) struct Document<'a> {
    pub alloc: Global,
    pub text: &'a [u8],
    pub entries: Vec<Entry>,
    pub table: Table,
}

impl<'a> Document<'a> {
    /// A text, and the table that it means.
    pub fn new(alloc: Global, text: &'a [u8], table: Table) -> Result<Document<'a>, AllocError> {
        let entries = entries_of(alloc, text)?;
        Ok(Document {
            alloc,
            text,
            entries,
            table,
        })
    }

    /// The table at a place.
    pub fn table_at(&self, place: FilePlace) -> Option<&Table> {
        match place {
            FilePlace::Top => Some(&self.table),
            FilePlace::Block(number) => self.blocks().get(number)?.as_table(),
            FilePlace::Connect(number) => self.connections().get(number)?.as_table(),
            FilePlace::Feed(number) => self.feeds().get(number)?.as_table(),
        }
    }

    pub fn blocks(&self) -> &[Value] {
        values_at(&self.table, Key::Block)
    }

    pub fn connections(&self) -> &[Value] {
        values_at(&self.table, Key::Connect)
    }

    pub fn feeds(&self) -> &[Value] {
        values_at(&self.table, Key::Feed)
    }

    /// The kind of the block that a table describes.
    pub fn kind_at(&self, place: FilePlace) -> Option<KindName> {
        KindName::named(text_at(self.table_at(place)?, Key::Kind))
    }

    /// The number of the first block of a name.
    pub fn block_named(&self, name: &str) -> Option<usize> {
        for (number, value) in self.blocks().iter().enumerate() {
            if let Some(table) = value.as_table() {
                if text_at(table, Key::Name).as_bytes() == name.as_bytes() {
                    return Some(number);
                }
            }
        }
        None
    }

    /// The names of the blocks.
    pub fn names(&self) -> Result<Vec<&str>, AllocError> {
        let mut names = Vec::new(self.alloc);
        for value in self.blocks() {
            if let Some(table) = value.as_table() {
                names.push(text_at(table, Key::Name))?;
            }
        }
        Ok(names)
    }

    /// A finding at the beginning of a table.
    pub fn at_table(&self, place: FilePlace, message: String) -> Finding {
        Finding {
            place: self.start_of(place),
            message,
        }
    }

    /// A finding at the value of a key, or at the table if the key is not found.
    pub fn at_value(&self, place: FilePlace, key: Key, message: String) -> Finding {
        Finding {
            place: self.value_of(place, key),
            message,
        }
    }

    /// Where a table begins.
    pub fn start_of(&self, place: FilePlace) -> usize {
        for entry in &self.entries {
            if entry.table == place && entry.key.is_none() {
                return entry.start;
            }
        }
        0
    }

    /// Where the value of a key begins, or the table if the key is not found.
    pub fn value_of(&self, place: FilePlace, key: Key) -> usize {
        for entry in &self.entries {
            if let Some(word) = entry.key {
                if entry.table == place && part(self.text, word) == key.text().as_bytes() {
                    return entry.value;
                }
            }
        }
        self.start_of(place)
    }

    /// Where the item of this number begins in the array at a place, which may be in brackets or made by headers; else
    /// the place itself.
    pub fn item_of(&self, array: usize, number: usize) -> usize {
        match self.header_of(array, number) {
            Some(header) => header,
            None => self.inline_item(array, number),
        }
    }

    // Where the header of this number begins, among those that make the array at a place; the place itself if there are
    // fewer. None if no table begins at the place.
    fn header_of(&self, place: usize, number: usize) -> Option<usize> {
        // (the value of a key begins after the key)
        let first = self
            .entries
            .iter()
            .find(|entry| entry.start == place && entry.value == place)?;
        let mut left = number;
        for entry in &self.entries {
            let is_header = entry.start == entry.value && entry.table == first.table;
            if is_header && self.word_of(entry) == self.word_of(first) {
                if left == 0 {
                    return Some(entry.start);
                }
                left -= 1;
            }
        }
        Some(place)
    }

    // The first word of a key or a header; empty if the entry is a table itself.
    fn word_of(&self, entry: &Entry) -> &[u8] {
        match entry.key {
            Some(word) => part(self.text, word),
            None => b"",
        }
    }

    fn inline_item(&self, array: usize, number: usize) -> usize {
        let mut place = array;
        let mut depth = 0usize;
        let mut count = 0usize;
        let mut is_next = true;
        for _ in 0..rest(self.text, array).len() {
            let Some(token) = next_token(self.text, place) else {
                break;
            };
            place = token.whole.end;
            if depth == 1 && is_next && !matches!(token.mark, Mark::Newline | Mark::Close) {
                if count == number {
                    return token.whole.start;
                }
                is_next = false;
            }
            match token.mark {
                Mark::OpenArray | Mark::OpenTable => depth = depth.saturating_add(1),
                Mark::Close => depth = depth.saturating_sub(1),
                Mark::Comma if depth == 1 => {
                    count = count.saturating_add(1);
                    is_next = true;
                }
                _ => {}
            }
            if depth == 0 {
                break;
            }
        }
        array
    }

    /// The line of a place, from 1.
    pub fn line_of(&self, place: usize) -> usize {
        line_of(self.text, place)
    }
}
