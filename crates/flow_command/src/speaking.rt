//! Live runs between files: lines make calls while items stream.

use crate::devices::Chain;
use crate::line_calls::Blocks;
use crate::line_thread::{LineThread, Speaker};
use crate::refusing::begins_none_of;
use crate::stops::{Stop, Stream};
use crate::words::Call;
use flow_core::start_fault::StartFault;
use reader_threads::ReaderThreads;
use request_box::{RequestBox, request_box};
use run_stats::Observer;
use std::alloc::Global;
use std::fs::File;
use std::io::{Read, StdinLock, Write};
use std::os::unix::fs::FileTypeExt;
use std::sync::{Arc, Wait};
use std::thread::Threads;
use std::{fs, io};

/// Where lines come from.
#[derive(Drop)]
pub enum Control {
    Standard(StdinLock<'static>),
    File(File),
    /// A pipe of this path, opened anew whenever all its writers are gone.
    Pipe(HostRuntime, String, Option<File>),
}

impl Read for Control {
    fn read(&mut self, buf: &mut [u8]) -> io::Result<usize> {
        match self {
            Control::Standard(stream) => stream.read(buf),
            Control::File(file) => file.read(buf),
            Control::Pipe(rt, path, opened) => {
                let mut file = match opened.take() {
                    Some(file) => file,
                    None => fs::open(rt, path.as_str())?,
                };
                let count = file.read(buf)?;
                if 0 < count {
                    *opened = Some(file);
                }
                Ok(count)
            }
        }
    }
}

impl Control {
    /// Whether lines may come after the end of a read.
    pub fn comes_again(&self) -> bool {
        matches!(self, Control::Pipe(..))
    }
}

/// Where replies go.
#[derive(Drop)]
pub enum Replies {
    Standard(HostRuntime),
    File(File),
    /// A pipe of this path, opened at the first reply.
    Pipe(HostRuntime, String),
}

impl Replies {
    /// Writes a reply, and hands it on at once.
    pub fn write(&mut self, reply: &[u8]) -> io::Result<()> {
        let opened = match self {
            Replies::Standard(rt) => {
                let mut output = std::io::writer(rt);
                output.write_all(reply)?;
                return output.flush();
            }
            Replies::File(file) => return file.write_all(reply),
            Replies::Pipe(rt, path) => fs::create(rt, path.as_str())?,
        };
        let mut file = opened;
        let written = file.write_all(reply);
        *self = Replies::File(file);
        written
    }
}

/// Where a live run gets its lines, and where its replies go.
#[derive(Drop)]
pub struct Speech {
    pub control: Control,
    pub replies: Replies,
}

/// Opens what the words name for lines and replies. If that fails, it tells so and returns the status of the call.
pub fn speech_for(rt: &HostRuntime, call: &Call<'_>) -> Result<Speech, u8> {
    let control = match call.talk.control {
        None => Control::Standard(rt.reader()),
        Some(path) => match opened_control(rt, path) {
            Ok(control) => control,
            Err(error) => return Err(begins_none_of(rt, StartFault::of_file(error.kind()), path)),
        },
    };
    let replies = match call.talk.replies {
        None => Replies::Standard(*rt),
        Some(path) => match opened_replies(rt, path) {
            Ok(replies) => replies,
            Err(error) => return Err(begins_none_of(rt, StartFault::of_file(error.kind()), path)),
        },
    };
    Ok(Speech { control, replies })
}

fn opened_control(rt: &HostRuntime, path: &str) -> io::Result<Control> {
    if fs::metadata(rt, path)?.file_type().is_fifo() {
        return Ok(Control::Pipe(*rt, String::from_str(rt.alloc(), path)?, None));
    }
    Ok(Control::File(fs::open(rt, path)?))
}

fn opened_replies(rt: &HostRuntime, path: &str) -> io::Result<Replies> {
    match fs::metadata(rt, path) {
        Ok(found) if found.file_type().is_fifo() => {
            Ok(Replies::Pipe(*rt, String::from_str(rt.alloc(), path)?))
        }
        _ => Ok(Replies::File(fs::create(rt, path)?)),
    }
}

/// Starts the thread that makes the calls of the lines, and returns it with the box of its requests. It tells what the
/// observer has measured, if there is one.
pub fn lines_of<R: Threads + Wait + Copy + Send + Sync + 'static>(
    threads: R,
    alloc: Global,
    run: &Stream<R>,
    readers: &ReaderThreads<Chain, R>,
    observer: Option<Arc<Observer<R>, Global>>,
    speech: Speech,
) -> Result<(RequestBox<R>, LineThread<R>), Stop> {
    let blocks = Blocks::of(alloc, run.plant.graph())?;
    let (requests, caller) = request_box(threads, alloc, readers.bell()?)?;
    let speaker = Speaker::new(alloc, blocks, caller, observer, speech)?;
    let lines = LineThread::start(threads, alloc, speaker)?;
    Ok((requests, lines))
}
