//! The thread that reads the lines of a live run between files.

use crate::line_calls::{Blocks, Said, reply_to};
use crate::speaking::{Control, Speech};
use crate::stops::Stop;
use request_box::Caller;
use run_stats::{Meter, Observer};
use std::alloc::{AllocError, Global};
use std::io::Read;
use std::sync::{Arc, Condvar, Mutex, Wait};
use std::thread;
use std::thread::Threads;
use threads::RunError;

// The most bytes of a line, as of a script's.
const LONGEST_LINE: usize = 65_536;

// How many bytes are read at once.
const PIECE: usize = 4_096;

/// A thread that makes the calls of lines, and answers each before it reads the next.
#[derive(Drop)]
pub struct LineThread<R: Drop> {
    rt: R,
    hand: Arc<Hand, Global>,
}

// What the thread has in hand.
#[derive(Clone, Copy, Debug, PartialEq, Eq)]
enum InHand {
    Nothing,
    // A line whose reply is not written yet.
    Line,
    // Whether it takes no more lines.
    Over,
}

#[derive(Drop)]
pub struct Hand {
    has: Mutex<InHand>,
    emptied: Condvar,
}

impl Hand {
    fn shared(alloc: Global) -> Result<Arc<Hand, Global>, AllocError> {
        let hand = Hand {
            has: Mutex::new(InHand::Nothing),
            emptied: Condvar::new(),
        };
        Ok(Arc::new(alloc, hand)?)
    }

    // Takes a line in hand, and returns whether it may.
    fn fill<R: Wait>(&self, rt: &R) -> bool {
        let mut has = self.has.lock(rt);
        if *has == InHand::Over {
            return false;
        }
        *has = InHand::Line;
        true
    }

    fn empty<R: Wait>(&self, rt: &R) {
        *self.has.lock(rt) = InHand::Nothing;
        self.emptied.notify_one();
    }

    // Waits until the line in hand is answered, and lets no other be taken.
    fn end<R: Wait>(&self, rt: &R) {
        let mut has = self.has.lock(rt);
        for _ in rt.forever() {
            if *has != InHand::Line {
                *has = InHand::Over;
                return;
            }
            has = self.emptied.wait(rt, has);
        }
    }
}

impl<R: Threads + Wait + Copy + Send + 'static> LineThread<R> {
    /// Starts it.
    pub fn start<S: Speaks<R> + Send + Drop + 'static>(
        rt: R,
        alloc: Global,
        speaker: S,
    ) -> Result<LineThread<R>, Stop> {
        let hand = Hand::shared(alloc)?;
        let theirs = Arc::try_clone(&hand)?;
        let mut speaker = speaker;
        match thread::spawn(&rt, move || speaker.answer_all(&rt, alloc, &theirs)) {
            Ok(_handle) => Ok(LineThread { rt, hand }),
            Err(_) => Err(Stop::Run(RunError::Thread)),
        }
    }
}

impl<R: Wait + Drop> LineThread<R> {
    /// Waits until the reply to the line in hand is written; no other follows. The box of requests is dropped before,
    /// so that each call ends. It does not wait for the thread, which may read for as long as there is something to
    /// read.
    pub fn finish(self) {
        self.hand.end(&self.rt);
    }
}

/// What answers lines on the thread.
pub trait Speaks<R> {
    /// Answers each line, until no line comes or nobody answers any more.
    fn answer_all(&mut self, rt: &R, alloc: Global, hand: &Hand);
}

/// Makes the calls of lines.
#[derive(Drop)]
pub struct Speaker<R: Drop> {
    blocks: Blocks,
    caller: Caller<R>,
    // What the run is measured by, if it is.
    observer: Option<Arc<Observer<R>, Global>>,
    speech: Speech,
    lines: Lines,
}

impl<R: Wait + Drop> Speaks<R> for Speaker<R> {
    fn answer_all(&mut self, rt: &R, alloc: Global, hand: &Hand) {
        for _ in rt.forever() {
            match self.lines.next(&mut self.speech.control) {
                Ok(Came::Line) => {}
                Ok(Came::Over) | Err(_) => return,
            }
            if !hand.fill(rt) {
                return;
            }
            let goes_on = self.answer(alloc);
            hand.empty(rt);
            if !goes_on {
                return;
            }
        }
    }
}

impl<R: Drop> Speaker<R> {
    /// No line was read yet.
    pub fn new(
        alloc: Global,
        blocks: Blocks,
        caller: Caller<R>,
        observer: Option<Arc<Observer<R>, Global>>,
        speech: Speech,
    ) -> Result<Speaker<R>, AllocError> {
        Ok(Speaker {
            blocks,
            caller,
            observer,
            speech,
            lines: Lines::new(alloc)?,
        })
    }
}

impl<R: Wait + Drop> Speaker<R> {
    // Answers the line that came last, and returns whether more may be answered.
    fn answer(&mut self, alloc: Global) -> bool {
        let mut reply = Vec::new(alloc);
        let meter = meter_of(&self.observer);
        let said = reply_to(
            alloc,
            &self.caller,
            &self.blocks,
            meter,
            &self.lines.line,
            &mut reply,
        );
        if !reply.is_empty() && self.speech.replies.write(&reply).is_err() {
            return false;
        }
        matches!(said, Ok(Said::All))
    }
}

// The meter of an observer; none if it only traces.
fn meter_of<R>(observer: &Option<Arc<Observer<R>, Global>>) -> Option<&Meter<R>> {
    match observer {
        Some(observer) => observer.meter.as_ref(),
        None => None,
    }
}

// Whether a line came.
#[derive(Clone, Copy, Debug, PartialEq, Eq)]
enum Came {
    Line,
    Over,
}

// Lines of bytes that come in pieces.
#[derive(Drop)]
struct Lines {
    // What was read of the next lines, and the last whole line.
    bytes: Vec<u8>,
    line: Vec<u8>,
    piece: Vec<u8>,
}

impl Lines {
    fn new(alloc: Global) -> Result<Lines, AllocError> {
        Ok(Lines {
            bytes: Vec::new(alloc),
            line: Vec::new(alloc),
            piece: vec![in alloc; 0; PIECE]?,
        })
    }

    // Waits for the next line, and takes it. There is none after a line that is too long, or after a failed read.
    fn next(&mut self, control: &mut Control) -> std::io::Result<Came> {
        for _ in 0..u64::MAX {
            if self.take()? {
                return Ok(Came::Line);
            }
            if LONGEST_LINE < self.bytes.len() {
                return Ok(Came::Over);
            }
            let count = control.read(&mut self.piece)?;
            if count == 0 {
                if !self.bytes.is_empty() {
                    self.bytes.push(b'\n')?;
                } else if !control.comes_again() {
                    return Ok(Came::Over);
                }
            }
            self.bytes
                .extend_from_slice(self.piece.get(..count).unwrap_or(&[]))?;
        }
        Ok(Came::Over)
    }

    // Takes the first line off the bytes, if its end has come.
    fn take(&mut self) -> Result<bool, AllocError> {
        let Some(end) = self.bytes.iter().position(|byte| *byte == b'\n') else {
            return Ok(false);
        };
        self.line.clear();
        self.line
            .extend_from_slice(self.bytes.get(..end).unwrap_or(&[]))?;
        if self.line.last() == Some(&b'\r') {
            self.line.pop();
        }
        self.bytes
            .drain(..self.bytes.len().min(end.saturating_add(1)));
        Ok(true)
    }
}
