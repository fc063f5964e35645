//! A writer, its thread, and what the thread is given.

ghost use Rattle.std.specs.Prelude.{IfSome};
ghost use Rattle.std.specs.Io.{WritesAtMost};

use byte_io::write_whole;
use request_box::Bell;
use std::alloc::{AllocError, Global};
use std::io::{ErrorKind, Write};
use std::sync::{Arc, Condvar, Mutex, MutexGuard, Wait};
use std::{io, mem};

// What both sides share, under the lock.
#[derive(Drop)]
struct Shared<C> {
    // The writer, until the thread has it.
    writer: Option<C>,
    // What the thread writes next, and whether it flushes then.
    piece: Vec<u8>,
    wants_flush: bool,
    // Whether something was given since the last flush.
    is_unflushed: bool,
    // Whether the thread has a piece.
    is_busy: bool,
    // Of what kind a failure was. Nothing is written any more then.
    failed: Option<ErrorKind>,
    // The failure, until it is told.
    failure: Option<io::Error>,
    // Whether nobody gives any more.
    is_over: bool,
}

impl<C> Shared<C> {
    // The failure, once there is one.
    fn failure(&mut self) -> Option<io::Error> {
        match (self.failure.take(), self.failed) {
            (Some(error), _) => Some(error),
            (None, Some(kind)) => Some(io::Error::from(kind)),
            (None, None) => None,
        }
    }

    // Takes all of these bytes, if there is room.
    fn put(&mut self, bytes: &[u8]) -> Option<io::Result<usize>>
        ensures { IfSome result (λ put. WritesAtMost put bytes.now) }
    {
        if let Some(error) = self.failure() {
            return Some(Err(error));
        }
        if self.is_over {
            return Some(Err(io::Error::from(ErrorKind::WriteZero)));
        }
        if !self.piece.is_empty() {
            return None;
        }
        Some(self.fill(bytes))
    }

    fn fill(&mut self, bytes: &[u8]) -> io::Result<usize>
        ensures { WritesAtMost result bytes.now }
    {
        self.piece.extend_from_slice(bytes)?;
        self.is_unflushed = true;
        Ok(bytes.len())
    }

    // Asks for a flush of what was given.
    fn flush(&mut self) -> io::Result<()> {
        if let Some(error) = self.failure() {
            return Err(error);
        }
        if self.is_unflushed {
            self.is_unflushed = false;
            self.wants_flush = true;
        }
        Ok(())
    }

    // Lets nobody give any more.
    fn close(&mut self) {
        self.is_over = true;
        self.wants_flush = self.wants_flush || self.is_unflushed;
        self.is_unflushed = false;
    }

    // Whether there is something to do for the thread.
    fn has_work(&self) -> bool {
        !self.piece.is_empty() || self.wants_flush
    }

    // Gives the thread the piece, and tells whether to flush then.
    fn hand_on(&mut self, piece: &mut Vec<u8>) -> bool {
        piece.clear();
        mem::swap(&mut self.piece, piece);
        self.is_busy = true;
        mem::replace(&mut self.wants_flush, false)
    }

    // Notes how the thread's write ended.
    fn end_write(&mut self, written: io::Result<()>) {
        self.is_busy = false;
        if let Err(error) = written {
            self.piece.clear();
            self.wants_flush = false;
            self.is_unflushed = false;
            self.failed = Some(error.kind());
            self.failure = Some(error);
        }
    }
}

/// A writer that a thread writes to.
#[derive(Drop)]
pub(crate) struct Writing<C: Drop> {
    shared: Mutex<Shared<C>>,
    given: Condvar,
    // Rung when something was taken, and when a write has ended.
    bell: Arc<Bell, Global>,
}

impl<C: Drop> Writing<C> {
    /// A writer that no thread has yet.
    pub(crate) fn new(alloc: Global, bell: Arc<Bell, Global>, writer: C) -> Writing<C> {
        Writing {
            shared: Mutex::new(Shared {
                writer: Some(writer),
                piece: Vec::new(alloc),
                wants_flush: false,
                is_unflushed: false,
                is_busy: true,
                failed: None,
                failure: None,
                is_over: false,
            }),
            given: Condvar::new(),
            bell,
        }
    }

    /// The writer, unless the thread has it.
    pub(crate) fn writer<R: Wait>(&self, rt: &R) -> Option<C> {
        self.shared.lock(rt).writer.take()
    }

    /// Whether a write would not wait.
    pub(crate) fn takes<R: Wait>(&self, rt: &R) -> bool {
        self.shared.lock(rt).piece.is_empty()
    }

    /// Gives all of these bytes. It waits if the thread has not taken those before.
    pub(crate) fn give<R: Wait>(&self, rt: &R, bytes: &[u8]) -> io::Result<usize>
        ensures { WritesAtMost result bytes.now }
    {
        for _ in rt.forever() {
            let heard = self.bell.rings(rt);
            let mut shared = self.shared.lock(rt);
            let put = shared.put(bytes);
            drop(shared);
            if let Some(put) = put {
                self.given.notify_one();
                return put;
            }
            self.bell.wait(rt, heard);
        }
        unreachable!()
    }

    /// Has the thread flush behind what it was given.
    pub(crate) fn flush<R: Wait>(&self, rt: &R) -> io::Result<()> {
        let flushed = self.shared.lock(rt).flush();
        self.given.notify_one();
        flushed
    }

    /// Has the thread close the writer, once it has written all. Nothing may be given behind that.
    pub(crate) fn close<R: Wait>(&self, rt: &R) {
        self.shared.lock(rt).close();
        self.given.notify_one();
    }

    /// Ends the thread, once it has written all. It returns a failure that was not told.
    pub(crate) fn end<R: Wait>(&self, rt: &R) -> io::Result<()> {
        for _ in rt.forever() {
            let heard = self.bell.rings(rt);
            let mut shared = self.shared.lock(rt);
            if !shared.is_busy && !shared.has_work() {
                shared.is_over = true;
                let failure = shared.failure.take();
                drop(shared);
                self.given.notify_one();
                return match failure {
                    Some(error) => Err(error),
                    None => Ok(()),
                };
            }
            drop(shared);
            self.bell.wait(rt, heard);
        }
        unreachable!()
    }

    // Waits for the next piece, and tells whether to flush then. There is none once nobody gives any more.
    fn next<R: Wait>(&self, rt: &R, piece: &mut Vec<u8>) -> Option<bool> {
        let mut shared = self.when_given(rt);
        if !shared.has_work() {
            return None;
        }
        let is_flushed = shared.hand_on(piece);
        drop(shared);
        self.bell.ring(rt);
        Some(is_flushed)
    }

    // The lock, once there is something to do, or nobody gives any more.
    fn when_given<R: Wait>(&self, rt: &R) -> MutexGuard<'_, Shared<C>> {
        let mut shared = self.shared.lock(rt);
        for _ in rt.forever() {
            if shared.is_over || shared.has_work() {
                return shared;
            }
            shared = self.given.wait(rt, shared);
        }
        shared
    }

    // Notes how a write ended, and returns whether more may follow.
    fn end_write<R: Wait>(&self, rt: &R, written: io::Result<()>) -> bool {
        let is_ok = written.is_ok();
        self.shared.lock(rt).end_write(written);
        self.bell.ring(rt);
        is_ok
    }
}

impl<C: Write + Drop> Writing<C> {
    /// Writes what it is given until nobody gives any more, or a write fails. Only the thread calls it.
    pub(crate) fn write_on<R: Wait>(&self, rt: &R, room: Vec<u8>) {
        let Some(writer) = self.writer(rt) else {
            return;
        };
        let (mut writer, mut piece) = (writer, room);
        let mut written = writer.flush();
        for _ in rt.forever() {
            if !self.end_write(rt, written) {
                return;
            }
            let Some(is_flushed) = self.next(rt, &mut piece) else {
                return;
            };
            written = write_piece(&mut writer, &piece, is_flushed);
        }
    }
}

fn write_piece<C: Write>(writer: &mut C, piece: &[u8], is_flushed: bool) -> io::Result<()> {
    write_whole(writer, piece)?;
    if is_flushed { writer.flush() } else { Ok(()) }
}
