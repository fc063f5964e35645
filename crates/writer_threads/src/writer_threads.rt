//! The threads, and the writers that give them what is to be written.

use crate::writing::Writing;
use flowgraph::BlockId;
use pipeline::PipelineFault;
use request_box::Bell;
use std::alloc::{AllocError, Global};
use std::io::Write;
use std::sync::{Arc, Wait};
use std::thread::Threads;
use std::{io, thread};

/// Which of a sink's writers it is.
#[derive(Clone, Copy, Debug, PartialEq, Eq)]
pub enum Lane {
    Items,
    Tags,
}

/// Threads that write, one for each writer that they are started for, and which sinks take something.
#[derive(Drop)]
pub struct WriterThreads<C: Drop, R: Drop> {
    rt: R,
    bell: Arc<Bell, Global>,
    // By sink; none if no thread writes its items, or its tags.
    items: Vec<Option<Arc<Writing<C>, Global>>>,
    tags: Vec<Option<Arc<Writing<C>, Global>>>,
}

/// A writer: the writer itself, or what gives a thread what it writes.
#[derive(Drop)]
pub enum ApartWriter<C: Drop, R: Drop> {
    Here(C),
    Apart(Giver<C, R>),
}

/// Gives a thread what it writes.
#[derive(Drop)]
pub struct Giver<C: Drop, R: Drop> {
    rt: R,
    writing: Arc<Writing<C>, Global>,
}

impl<C: Write + Send + Drop + 'static, R: Threads + Wait + Copy + Send + 'static> WriterThreads<
    C,
    R,
> {
    /// No threads yet, for the sinks of a graph of so many blocks. They ring this bell when they have taken or written
    /// something. It fails only if the allocator refuses.
    pub fn new(
        rt: R,
        alloc: Global,
        blocks: usize,
        bell: Arc<Bell, Global>,
    ) -> Result<WriterThreads<C, R>, AllocError> {
        Ok(WriterThreads {
            rt,
            bell,
            items: none(alloc, blocks)?,
            tags: none(alloc, blocks)?,
        })
    }

    /// Starts a thread that writes the items or the tags of a sink. If none can be started, the writer is used
    /// directly, and counts as taking all. It fails only if the allocator refuses.
    pub fn start(
        &mut self,
        alloc: Global,
        sink: BlockId,
        lane: Lane,
        writer: C,
    ) -> Result<ApartWriter<C, R>, AllocError> {
        let bell = Arc::try_clone(&self.bell)?;
        let writing = Arc::new(alloc, Writing::new(alloc, bell, writer))?;
        let theirs = Arc::try_clone(&writing)?;
        let rt = self.rt;
        if thread::spawn(&rt, move || theirs.write_on(&rt, Vec::new(alloc))).is_err() {
            return match writing.writer(&self.rt) {
                Some(writer) => Ok(ApartWriter::Here(writer)),
                None => Err(AllocError),
            };
        }
        let ours = Arc::try_clone(&writing)?;
        match lane {
            Lane::Items => put(&mut self.items, sink, ours),
            Lane::Tags => put(&mut self.tags, sink, ours),
        }
        Ok(ApartWriter::Apart(Giver {
            rt: self.rt,
            writing,
        }))
    }
}

impl<C: Drop, R: Wait + Drop> WriterThreads<C, R> {
    /// Whether the writers of a sink take all that they are given next, in one write each, without waiting.
    pub fn takes(&self, sink: BlockId) -> bool {
        let at = sink.0 as usize;
        take(&self.rt, self.items.get(at)) && take(&self.rt, self.tags.get(at))
    }

    /// Closes the writers of a sink, once all that they were given is written. They must not be given any more.
    pub fn close(&self, sink: BlockId) {
        let at = sink.0 as usize;
        close(&self.rt, self.items.get(at));
        close(&self.rt, self.tags.get(at));
    }

    /// Waits until the threads have written all that they were given, and ends them. If writes failed, it returns the
    /// failure of the first sink that no call has told.
    pub fn finish(self) -> Result<(), PipelineFault> {
        let mut fault = None;
        let mut sink = 0u32;
        for (items, tags) in self.items.iter().zip(self.tags.iter()) {
            if let Err(error) = ended(&self.rt, items) {
                fault = fault.or(Some(PipelineFault::WriteItems(BlockId(sink), error)));
            }
            if let Err(error) = ended(&self.rt, tags) {
                fault = fault.or(Some(PipelineFault::WriteTags(BlockId(sink), error)));
            }
            sink = sink.saturating_add(1);
        }
        match fault {
            Some(fault) => Err(fault),
            None => Ok(()),
        }
    }
}

// So many places without a thread.
fn none<C: Drop>(
    alloc: Global,
    count: usize,
) -> Result<Vec<Option<Arc<Writing<C>, Global>>>, AllocError> {
    let mut writings = Vec::with_capacity(alloc, count)?;
    for _ in 0..count {
        writings.push(None)?;
    }
    Ok(writings)
}

fn put<C: Drop>(
    writings: &mut Vec<Option<Arc<Writing<C>, Global>>>,
    sink: BlockId,
    writing: Arc<Writing<C>, Global>,
) {
    if let Some(slot) = writings.get_mut(sink.0 as usize) {
        *slot = Some(writing);
    }
}

// Whether a thread takes what it is given next. If there is none, the writer does.
fn take<C: Drop, R: Wait>(rt: &R, writing: Option<&Option<Arc<Writing<C>, Global>>>) -> bool {
    match writing {
        Some(Some(writing)) => writing.takes(rt),
        _ => true,
    }
}

// Closes the writer of a thread, if there is one.
fn close<C: Drop, R: Wait>(rt: &R, writing: Option<&Option<Arc<Writing<C>, Global>>>) {
    if let Some(Some(writing)) = writing {
        writing.close(rt);
    }
}

// Ends a thread, if there is one.
fn ended<C: Drop, R: Wait>(rt: &R, writing: &Option<Arc<Writing<C>, Global>>) -> io::Result<()> {
    match writing {
        Some(writing) => writing.end(rt),
        None => Ok(()),
    }
}

impl<C: Write + Drop, R: Wait + Drop> Write for ApartWriter<C, R> {
    fn write(&mut self, buf: &[u8]) -> io::Result<usize> {
        match self {
            ApartWriter::Here(writer) => writer.write(buf),
            ApartWriter::Apart(giver) => giver.writing.give(&giver.rt, buf),
        }
    }

    fn flush(&mut self) -> io::Result<()> {
        match self {
            ApartWriter::Here(writer) => writer.flush(),
            ApartWriter::Apart(giver) => giver.writing.flush(&giver.rt),
        }
    }
}
