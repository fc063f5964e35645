//! Room for what is read of a tape. It serves one piece after another.

ghost use Rattle.std.specs.Prelude.{◌≡◌, ◌++◌, ◌<◌, take, [], IfOk, OnOk, OnErr};
ghost use Rattle.std.specs.Io.KnownBytes.{IsAtEnd};

use crate::reading::read_once;
use std::alloc::{AllocError, Global};
use std::io;
use std::io::Read;
use std::marker::Model;

/// Bytes that were read, with room for more after them. It keeps its memory when it is emptied.
#[derive(Drop)]
pub struct Room {
    // So many of these bytes were read.
    bytes: Vec<u8>,
    count: usize,
}

impl Model for Room {
    ghost use Rattle.std.specs.Prelude.{◌≤◌, ℕ, List, take, vec_len};

    ghost Value = { List ℕ };

    ghost view = { λ r. take r.count r.bytes.items };

    ghost invariant = { λ r. r.count ≤ vec_len r.bytes };
}

impl Room {
    /// Nothing was read. It takes no memory.
    pub fn new(alloc: Global) -> Room
        ensures { result ≡ [] }
    {
        Room {
            bytes: Vec::new(alloc),
            count: 0,
        }
    }

    /// What was read.
    pub fn bytes(&self) -> &[u8]
        ensures { result.now ≡ self.now }
    {
        &self.bytes[..self.count]
    }

    /// Forgets what was read.
    pub(crate) fn clear(&mut self)
        ensures { self.new ≡ [] }
    {
        self.count = 0;
    }

    /// Keeps so many first bytes, if there are as many.
    pub(crate) fn truncate(&mut self, count: usize)
        ensures { self.new ≡ take count self.old }
    {
        self.count = self.count.min(count);
    }

    /// Appends these bytes. It fails only if the allocator refuses, and then changes nothing.
    pub(crate) fn push(&mut self, more: &[u8]) -> Result<(), AllocError>
        ensures ok { OnOk result (self.new ≡ self.old ++ more.now) }
        ensures err { OnErr result (self.new ≡ self.old) }
    {
        self.bytes.truncate(self.count);
        self.bytes.extend_from_slice(more)?;
        self.count = self.bytes.len();
        Ok(())
    }

    /// Reads once, at most so many bytes, and appends them. It fails only if the allocator refuses, and then changes
    /// nothing.
    pub(crate) fn read<R: Read>(
        &mut self,
        reader: &mut R,
        most: usize,
    ) -> Result<io::Result<usize>, AllocError>
        ensures end { IfOk result (λ read. IfOk read (λ count. count ≡ 0 → 0 < most
            → IsAtEnd (R.remaining reader.new))) }
        ensures err { OnErr result (self.new ≡ self.old) }
    {
        let end = self.count.saturating_add(most);
        if self.bytes.len() < end {
            self.bytes.resize(end, 0)?;
        }
        let read = read_once(reader, &mut self.bytes[self.count..end]);
        if let Ok(count) = &read {
            self.count += *count;
        }
        Ok(read)
    }
}
