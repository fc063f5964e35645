//! A reader, its thread, and what the thread hands to the taker.

ghost use Rattle.std.specs.Prelude.{IfSome};
ghost use Rattle.std.specs.Io.{ReadsAtMost};

use request_box::Bell;
use std::alloc::{AllocError, Global};
use std::io;
use std::io::Read;
use std::sync::{Arc, Condvar, Mutex, MutexGuard, Wait};

// How many bytes a thread reads at once, at most.
const PIECE: usize = 65_536;

/// A reader of several inputs, one after the other.
pub trait Inputs: Read {
    /// The number of the input that was read last.
    fn number(&self) -> usize;
}

// What one read gave.
#[derive(Drop)]
struct Piece {
    // How the read ended; none once all of it is taken.
    ended: Option<io::Result<()>>,
    // The bytes, and how many of them are taken. At the end there are none.
    bytes: Vec<u8>,
    taken: usize,
    // The number of the input.
    number: usize,
}

impl Piece {
    // Takes what fits, if something is there, with the number of its input.
    fn take(&mut self, buf: &mut [u8]) -> Option<(io::Result<usize>, usize)>
        ensures { IfSome result (λ taken. ReadsAtMost taken.0 buf.new) }
    {
        let ended = self.ended.take()?;
        if let Err(error) = ended {
            return Some((Err(error), self.number));
        }
        let rest = self.bytes.get(self.taken..).unwrap_or(&[]);
        let count = rest.len().min(buf.len());
        buf[..count].copy_from_slice(&rest[..count]);
        let is_left = count < rest.len();
        self.taken = self.taken.saturating_add(count);
        if is_left {
            self.ended = Some(Ok(()));
        }
        Some((Ok(count), self.number))
    }

    // Puts in what a read gave: so many of these bytes.
    fn put(&mut self, read: io::Result<usize>, from: &[u8], number: usize) {
        self.bytes.clear();
        self.taken = 0;
        self.number = number;
        let ended = match read {
            Ok(count) => self.fill(&from[..count.min(from.len())]),
            Err(error) => Err(error),
        };
        self.ended = Some(ended);
    }

    // (there is room for them)
    fn fill(&mut self, bytes: &[u8]) -> io::Result<()> {
        self.bytes.extend_from_slice(bytes)?;
        Ok(())
    }
}

// What both sides share, under the lock.
#[derive(Drop)]
struct Shared<C> {
    // The reader, until the thread has it.
    reader: Option<C>,
    piece: Piece,
    // Whether nobody takes any more.
    is_over: bool,
}

/// A reader that a thread reads.
#[derive(Drop)]
pub(crate) struct Reading<C: Drop> {
    shared: Mutex<Shared<C>>,
    taken: Condvar,
    // Rung when there is something.
    bell: Arc<Bell, Global>,
}

impl<C: Drop> Reading<C> {
    /// A reader that no thread has yet. It fails only if the allocator refuses.
    pub(crate) fn new(
        alloc: Global,
        bell: Arc<Bell, Global>,
        reader: C,
    ) -> Result<Reading<C>, AllocError> {
        let piece = Piece {
            ended: None,
            bytes: Vec::with_capacity(alloc, PIECE)?,
            taken: 0,
            number: 0,
        };
        Ok(Reading {
            shared: Mutex::new(Shared {
                reader: Some(reader),
                piece,
                is_over: false,
            }),
            taken: Condvar::new(),
            bell,
        })
    }

    /// The reader, unless the thread has it.
    pub(crate) fn reader<R: Wait>(&self, rt: &R) -> Option<C> {
        self.shared.lock(rt).reader.take()
    }

    /// Whether there is something to take.
    pub(crate) fn is_ready<R: Wait>(&self, rt: &R) -> bool {
        self.shared.lock(rt).piece.ended.is_some()
    }

    /// Takes what fits of what was read, with the number of its input. It waits if nothing is there.
    pub(crate) fn take<R: Wait>(&self, rt: &R, buf: &mut [u8]) -> (io::Result<usize>, usize)
        ensures { ReadsAtMost result.0 buf.new }
    {
        for _ in rt.forever() {
            let heard = self.bell.rings(rt);
            let mut shared = self.shared.lock(rt);
            let taken = shared.piece.take(buf);
            drop(shared);
            if let Some(taken) = taken {
                self.taken.notify_one();
                return taken;
            }
            self.bell.wait(rt, heard);
        }
        unreachable!()
    }

    /// Ends the thread, once it is not in a read.
    pub(crate) fn end<R: Wait>(&self, rt: &R) {
        self.shared.lock(rt).is_over = true;
        self.taken.notify_one();
    }

    // Waits until what was read before is taken, and gives the new read. It returns whether somebody takes it.
    fn give<R: Wait>(&self, rt: &R, read: io::Result<usize>, bytes: &[u8], number: usize) -> bool {
        let mut shared = self.when_taken(rt);
        if shared.is_over {
            return false;
        }
        shared.piece.put(read, bytes, number);
        drop(shared);
        self.bell.ring(rt);
        true
    }

    // The lock, once all is taken or nobody takes any more.
    fn when_taken<R: Wait>(&self, rt: &R) -> MutexGuard<'_, Shared<C>> {
        let mut shared = self.shared.lock(rt);
        for _ in rt.forever() {
            if shared.is_over || shared.piece.ended.is_none() {
                return shared;
            }
            shared = self.taken.wait(rt, shared);
        }
        shared
    }
}

impl<C: Inputs + Drop> Reading<C> {
    /// Reads into this room until nobody takes any more. Only the thread calls it.
    pub(crate) fn read_on<R: Wait>(&self, rt: &R, room: &mut [u8]) {
        let Some(reader) = self.reader(rt) else {
            return;
        };
        let mut reader = reader;
        for _ in rt.forever() {
            let read = reader.read(room);
            if !self.give(rt, read, room, reader.number()) {
                return;
            }
        }
    }

    /// The room that a thread reads into.
    pub(crate) fn room(alloc: Global) -> Result<Vec<u8>, AllocError> {
        vec![in alloc; 0; PIECE]
    }
}
