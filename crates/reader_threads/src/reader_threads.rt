//! The threads, and the readers that take what they have read.

use crate::reading::{Inputs, Reading};
use flowgraph::BlockId;
use pipeline::Readiness;
use request_box::Bell;
use std::alloc::{AllocError, Global};
use std::io::Read;
use std::sync::{Arc, Wait};
use std::thread::Threads;
use std::{io, thread};

/// Threads that read, one for each source that they are started for, and which of these sources have something.
#[derive(Drop)]
pub struct ReaderThreads<C: Drop, R: Drop> {
    rt: R,
    bell: Arc<Bell, Global>,
    // By source; none if no thread reads for it.
    readings: Vec<Option<Arc<Reading<C>, Global>>>,
    // How often the bell had been rung by the end of the last wait.
    heard: u64,
}

/// A reader: the reader itself, or what a thread has read of it.
#[derive(Drop)]
pub enum ApartReader<C: Drop, R: Drop> {
    Here(C),
    Apart(Taker<C, R>),
}

/// Takes what a thread has read.
#[derive(Drop)]
pub struct Taker<C: Drop, R: Drop> {
    rt: R,
    reading: Arc<Reading<C>, Global>,
    // The number of the input that was taken last.
    number: usize,
}

impl<C: Inputs + Send + Drop + 'static, R: Threads + Wait + Copy + Send + 'static> ReaderThreads<
    C,
    R,
> {
    /// No threads yet, for the sources of a graph of so many blocks. It fails only if the allocator refuses.
    pub fn new(rt: R, alloc: Global, blocks: usize) -> Result<ReaderThreads<C, R>, AllocError> {
        let mut readings = Vec::with_capacity(alloc, blocks)?;
        for _ in 0..blocks {
            readings.push(None)?;
        }
        Ok(ReaderThreads {
            rt,
            bell: Arc::new(alloc, Bell::new())?,
            readings,
            heard: 0,
        })
    }

    /// Starts a thread that reads for a source. If none can be started, the reader is used directly, and counts as
    /// ready. It fails only if the allocator refuses.
    pub fn start(
        &mut self,
        alloc: Global,
        source: BlockId,
        reader: C,
    ) -> Result<ApartReader<C, R>, AllocError> {
        let bell = Arc::try_clone(&self.bell)?;
        let reading = Arc::new(alloc, Reading::new(alloc, bell, reader)?)?;
        let theirs = Arc::try_clone(&reading)?;
        let mut room = Reading::<C>::room(alloc)?;
        let rt = self.rt;
        if thread::spawn(&rt, move || theirs.read_on(&rt, &mut room)).is_err() {
            return match reading.reader(&self.rt) {
                Some(reader) => Ok(ApartReader::Here(reader)),
                None => Err(AllocError),
            };
        }
        if let Some(slot) = self.readings.get_mut(source.0 as usize) {
            *slot = Some(Arc::try_clone(&reading)?);
        }
        Ok(ApartReader::Apart(Taker {
            rt: self.rt,
            reading,
            number: 0,
        }))
    }

    /// Ends the threads. One that is in a read is not waited for.
    pub fn finish(self) {
        for reading in self.readings.iter().flatten() {
            reading.end(&self.rt);
        }
    }
}

impl<C: Drop, R: Drop> ReaderThreads<C, R> {
    /// The bell that rings when a thread has read something. It may also ring when a request has come.
    pub fn bell(&self) -> Result<Arc<Bell, Global>, AllocError> {
        Arc::try_clone(&self.bell)
    }
}

impl<C: Drop, R: Wait + Drop> ReaderThreads<C, R> {
    /// Whether a thread has read something for a source that was not taken.
    pub fn has_read(&self, source: BlockId) -> bool {
        match self.readings.get(source.0 as usize) {
            Some(Some(reading)) => reading.is_ready(&self.rt),
            _ => false,
        }
    }

    // Whether there is something for a source.
    fn has_some(&self, source: usize) -> bool {
        match self.readings.get(source) {
            Some(Some(reading)) => reading.is_ready(&self.rt),
            _ => true,
        }
    }
}

impl<C: Drop, R: Wait + Drop> Readiness for ReaderThreads<C, R> {
    fn is_ready(&mut self, source: BlockId) -> bool {
        self.has_some(source.0 as usize)
    }

    fn takes(&mut self, _sink: BlockId) -> bool {
        true
    }

    fn wait(&mut self) {
        self.heard = self.bell.wait(&self.rt, self.heard);
    }
}

impl<C: Inputs + Drop, R: Drop> ApartReader<C, R> {
    /// The number of the input that was read last.
    pub fn number(&self) -> usize {
        match self {
            ApartReader::Here(reader) => reader.number(),
            ApartReader::Apart(taker) => taker.number,
        }
    }
}

impl<C: Read + Drop, R: Wait + Drop> Read for ApartReader<C, R> {
    fn read(&mut self, buf: &mut [u8]) -> io::Result<usize> {
        match self {
            ApartReader::Here(reader) => reader.read(buf),
            ApartReader::Apart(taker) => {
                let (read, number) = taker.reading.take(&taker.rt, buf);
                taker.number = number;
                read
            }
        }
    }
}
