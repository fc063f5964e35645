//! The files and streams of raw items.

use crate::late_file::LateFile;
use crate::limited::Limited;
use reader_threads::Inputs;
use slice_threads::Unread;
use std::alloc::Global;
use std::collections::VecDeque;
use std::io;
use std::io::{Read, Seek, SeekFrom, StdinLock, Write};

/// A standard stream, or a file.
#[derive(Drop)]
pub enum Device<S, F> {
    Standard(S),
    File(F),
}

pub type Source = Device<StdinLock<'static>, LateFile>;

pub type Writer = Device<StandardOutput, LateFile>;

/// A writer of a sink's items or tags.
pub type Target = Limited<Writer>;

/// Standard output, for any thread.
#[derive(Drop)]
pub struct StandardOutput(pub HostRuntime);

impl Write for StandardOutput {
    fn write(&mut self, buf: &[u8]) -> io::Result<usize> {
        std::io::writer(&self.0).write(buf)
    }

    fn flush(&mut self) -> io::Result<()> {
        Ok(())
    }
}

impl<S: Read, F: Read> Read for Device<S, F> {
    fn read(&mut self, buf: &mut [u8]) -> io::Result<usize> {
        match self {
            Device::Standard(stream) => stream.read(buf),
            Device::File(file) => file.read(buf),
        }
    }
}

impl<S: Write, F: Write> Write for Device<S, F> {
    fn write(&mut self, buf: &[u8]) -> io::Result<usize> {
        match self {
            Device::Standard(stream) => stream.write(buf),
            Device::File(file) => file.write(buf),
        }
    }

    fn flush(&mut self) -> io::Result<()> {
        match self {
            Device::Standard(stream) => stream.flush(),
            Device::File(file) => file.flush(),
        }
    }
}

/// The bytes to read of the inputs of a source: from this one on, at most so many.
#[derive(Clone, Copy, Debug, PartialEq, Eq)]
pub struct Extent {
    pub from: u64,
    pub most: u64,
}

impl Extent {
    /// All of them.
    pub const WHOLE: Extent = Extent {
        from: 0,
        most: u64::MAX,
    };
}

/// An input of a source, with its number among all.
#[derive(Drop)]
struct Part {
    number: usize,
    source: Source,
}

/// The inputs of a source, one after the other. One that ends within an item is the last.
#[derive(Drop)]
pub struct Chain {
    // What was read and given back: it is read again first. Also the failure of the read after it, if that failed.
    unread: VecDeque<u8>,
    failure: Option<io::Error>,
    parts: Vec<Part>,
    // How many bytes to pass over yet, and how many to read then at most.
    extent: Extent,
    // The input that is read, and how many bytes of an unfinished item it gave.
    at: usize,
    cut: usize,
    item_size: usize,
}

impl Chain {
    /// No inputs yet, for a source of items of so many bytes. This part of them is read.
    pub fn new(alloc: Global, item_size: usize, extent: Extent) -> Chain {
        Chain {
            unread: VecDeque::new(alloc),
            failure: None,
            parts: Vec::new(alloc),
            extent,
            at: 0,
            cut: 0,
            item_size,
        }
    }

    /// Adds an input after the others, unless all of it lies before the part that is read.
    pub fn push(&mut self, number: usize, source: Source) -> io::Result<()> {
        let mut source = source;
        if self.passes_over(&mut source)? {
            return Ok(());
        }
        self.parts.reserve(1)?;
        self.parts.push_reserved(Part { number, source });
        Ok(())
    }

    /// Gives back what was read last. It is read again, and fails again if it failed.
    pub fn give_back(&mut self, unread: Unread) {
        let Unread { bytes, failure } = unread;
        self.unread = VecDeque::from(bytes);
        self.failure = failure;
    }

    // Passes over what lies before the part that is read, and tells whether that is the whole input.
    fn passes_over(&mut self, source: &mut Source) -> io::Result<bool> {
        if self.extent.from == 0 {
            return Ok(false);
        }
        let Device::File(LateFile::Open(file)) = source else {
            return Ok(false);
        };
        let length = file.metadata()?.len();
        let size = self.item_size.max(1) as u64;
        if length <= self.extent.from && length % size == 0 {
            self.extent.from = self.extent.from.saturating_sub(length);
            return Ok(true);
        }
        file.seek(SeekFrom::Start(self.extent.from))?;
        self.extent.from = 0;
        Ok(false)
    }

    /// Whether a read of one of them may wait.
    pub fn may_be_silent(&self) -> bool {
        self.parts.iter().any(|part| match &part.source {
            Device::Standard(_) => true,
            Device::File(file) => file.may_be_silent(),
        })
    }
}

impl Inputs for Chain {
    fn number(&self) -> usize {
        match self.parts.get(self.at) {
            Some(part) => part.number,
            None => 0,
        }
    }
}

impl Read for Chain {
    fn read(&mut self, buf: &mut [u8]) -> io::Result<usize> {
        if !self.unread.is_empty() {
            return self.unread.read(buf);
        }
        if let Some(error) = self.failure.take() {
            return Err(error);
        }
        let most = buf
            .len()
            .min(usize::try_from(self.extent.most).unwrap_or(usize::MAX));
        let buf = &mut buf[..most];
        for _ in 0..self.parts.len() {
            let Some(part) = self.parts.get_mut(self.at) else {
                return Ok(0);
            };
            let count = part.source.read(buf)?;
            if 0 < count || 0 < self.cut {
                let size = self.item_size.max(1);
                self.cut = (self.cut % size).saturating_add(count % size) % size;
                self.extent.most = self.extent.most.saturating_sub(count as u64);
                return Ok(count);
            }
            let next = self.at.saturating_add(1);
            if self.parts.len() <= next {
                return Ok(0);
            }
            self.at = next;
        }
        Ok(0)
    }
}
