//! A thread that reads the tapes if a read may wait. Meanwhile what is there can be cut.

ghost use Rattle.std.specs.Prelude.{◌≡◌, length};
ghost use Rattle.std.specs.Io.{ReadsAtMost};
ghost use Rattle.std.specs.Io.KnownBytes.{ReadConsumes};
ghost use Rattle.slice_threads.specs.Cutting.{CutsAlike};

use crate::feeds::{Feeds, Want};
use crossbeam_channel::{Receiver, Sender, bounded};
use std::alloc::{AllocError, Global};
use std::io::{ErrorKind, Read};
use std::sync::Wait;
use std::thread::Threads;
use std::{io, thread};

// The most bytes that are read at once.
const CHUNK: usize = 1 << 18;

/// The readers of a source's tape and of its marks.
#[derive(Drop)]
pub struct Readers<R> {
    pub tape: R,
    pub marks: Option<R>,
}

/// What wakes the thread that waits for the next piece.
#[derive(Drop)]
pub(crate) enum Event {
    /// Something was read.
    Read(Taken),
    /// A piece was written, or no more will be.
    Turned,
}

/// What is to be read, with the room for it; afterwards, what was read.
#[derive(Drop)]
pub(crate) struct Taken {
    want: Want,
    room: Vec<u8>,
    // The most bytes to read.
    most: usize,
    // How many bytes were read into the room.
    count: usize,
    failure: Option<io::Error>,
}

/// The thread. It reads once each time that it is asked.
#[derive(Drop)]
pub(crate) struct Reading<F: Drop> {
    requests: Sender<Taken, Global>,
    // The readers, once the thread ends.
    back: Receiver<Vec<Readers<F>>, Global>,
    // The room for the next read; none while the thread has it.
    room: Option<Vec<u8>>,
}

impl<F: Read + Send + Drop + 'static> Reading<F> {
    /// Starts the thread. It tells of each read by an event. If it cannot be started, the readers are returned.
    pub(crate) fn start<R: Threads + Wait + Copy + Send + 'static>(
        rt: R,
        alloc: Global,
        readers: Vec<Readers<F>>,
        events: Sender<Event, Global>,
    ) -> Result<Result<Reading<F>, Vec<Readers<F>>>, AllocError> {
        let room = vec![in alloc; 0; CHUNK]?;
        let (requests, asked) = bounded(alloc, 1)?;
        let (lend, lent) = bounded(alloc, 1)?;
        let (give_back, back) = bounded(alloc, 1)?;
        let unlent = lent.clone()?;
        if lend.send(&rt, readers).is_err() {
            return Err(AllocError);
        }
        let started = thread::spawn(&rt, move || {
            if let Ok(readers) = lent.recv(&rt) {
                let readers = serve(&rt, readers, &asked, &events);
                // (if the receiver has given up, nobody takes them)
                let _ = give_back.send(&rt, readers);
            }
        });
        match started {
            Ok(_handle) => Ok(Ok(Reading {
                requests,
                back,
                room: Some(room),
            })),
            Err(_) => match unlent.try_recv(&rt) {
                Ok(readers) => Ok(Err(readers)),
                Err(_) => Err(AllocError),
            },
        }
    }
}

impl<F: Drop> Reading<F> {
    /// Whether the thread has nothing to read.
    pub(crate) fn is_idle(&self) -> bool {
        self.room.is_some()
    }

    /// Lets the thread read what is wanted, at most so many bytes, if it has nothing to read.
    pub(crate) fn ask<R: Wait>(
        &mut self,
        rt: &R,
        want: Want,
        most: usize,
    ) -> Result<(), AllocError> {
        match (want, self.room.take()) {
            (Want::Tape(_) | Want::Marks(_), Some(room)) => {
                let request = Taken {
                    want,
                    room,
                    most,
                    count: 0,
                    failure: None,
                };
                match self.requests.send(rt, request) {
                    Ok(()) => Ok(()),
                    Err(_) => Err(AllocError),
                }
            }
            (_, room) => {
                self.room = room;
                Ok(())
            }
        }
    }

    /// Gives the feeds what was read, and keeps the room for the next read.
    pub(crate) fn take_in(&mut self, feeds: &mut Feeds, taken: Taken) -> Result<(), AllocError>
        ensures { CutsAlike feeds.old feeds.new }
    {
        let Taken {
            want,
            room,
            count,
            failure,
            ..
        } = taken;
        feeds.take(want, &room[..count.min(room.len())], failure)?;
        self.room = Some(room);
        Ok(())
    }

    /// Ends the thread, and returns the readers. The thread must have nothing to read.
    pub(crate) fn finish<R: Wait>(self, rt: &R) -> Result<Vec<Readers<F>>, AllocError> {
        let Reading { requests, back, .. } = self;
        drop(requests);
        match back.recv(rt) {
            Ok(readers) => Ok(readers),
            Err(_) => Err(AllocError),
        }
    }
}

// Reads until nothing more can be asked for, and gives the readers back.
fn serve<F: Read + Drop, R: Wait>(
    rt: &R,
    readers: Vec<Readers<F>>,
    asked: &Receiver<Taken, Global>,
    events: &Sender<Event, Global>,
) -> Vec<Readers<F>> {
    let mut readers = readers;
    for _ in rt.forever() {
        let Ok(request) = asked.recv(rt) else {
            return readers;
        };
        let event = Event::Read(read(&mut readers, request));
        if events.send(rt, event).is_err() {
            return readers;
        }
    }
    unreachable!()
}

// Reads once what is asked for.
fn read<F: Read>(readers: &mut [Readers<F>], request: Taken) -> Taken {
    let mut taken = request;
    let (at, of_marks) = match taken.want {
        Want::Tape(at) => (at, false),
        Want::Marks(at) => (at, true),
        Want::Nothing | Want::Never => return taken,
    };
    let Some(readers) = readers.get_mut(at) else {
        return taken;
    };
    let most = taken.most.min(taken.room.len());
    let room = &mut taken.room[..most];
    let read = match &mut readers.marks {
        Some(marks) if of_marks => read_once(marks, room),
        _ => read_once(&mut readers.tape, room),
    };
    match read {
        Ok(count) => taken.count = count,
        Err(error) => taken.failure = Some(error),
    }
    taken
}

/// Reads once, and again if a signal breaks the read off.
pub(crate) fn read_once<F: Read>(reader: &mut F, room: &mut [u8]) -> io::Result<usize>
    ensures bound { ReadsAtMost result room.new }
    ensures length { length room.new ≡ length room.old }
    ensures bytes { ReadConsumes (F.remaining reader.old) (F.remaining reader.new) result room.new }
{
    for _ in 0..u64::MAX {
        match reader.read(room) {
            Err(error) if error.kind() == ErrorKind::Interrupted => {}
            read => return read,
        }
    }
    Err(io::Error::from(ErrorKind::Interrupted))
}
