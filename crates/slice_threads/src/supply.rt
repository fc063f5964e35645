//! Gives the threads their pieces, one after the other.

ghost use Rattle.std.specs.Prelude.{◌≡◌, ◌≤◌, ◌+◌, IfOk, IfSome, IfNone};
ghost use Rattle.slice_threads.specs.Cutting.{counted, first_of, CutsAlike};

use crate::desk::{Desk, Progress};
use crate::feeds::{Feeds, Want};
use crate::piece::{Piece, Share};
use crate::reading::{Event, Readers, Reading};
use crate::room::Room;
use crate::turn::Outlet;
use crossbeam_channel::Receiver;
use std::alloc::{AllocError, Global};
use std::io::Read;
use std::sync::Wait;

/// Who reads the tapes.
#[derive(Drop)]
pub(crate) enum By<F: Drop> {
    /// The thread that needs a piece.
    Here(Vec<Readers<F>>),
    /// A thread of its own, since a read may wait.
    Apart(Reading<F>),
}

// The tapes, as far as they were read, and who reads on.
#[derive(Drop)]
struct Intake<F: Drop> {
    feeds: Feeds,
    by: By<F>,
    // Events: the reading thread has read, or a piece was written.
    events: Receiver<Event, Global>,
}

/// The tapes that pieces are cut off. One thread at a time has them.
#[derive(Drop)]
pub(crate) struct Supply<F: Drop> {
    intake: Intake<F>,
    /// How many pieces were cut, and how many iterations they have.
    pub(crate) pieces: u64,
    pub(crate) iterations: u64,
    is_over: bool,
}

/// A piece with its number, and how many iterations of its own it has.
#[derive(Drop)]
pub(crate) struct Next {
    pub(crate) number: u64,
    pub(crate) iterations: u64,
    pub(crate) piece: Piece,
}

impl<F: Read + Drop> Supply<F> {
    /// No piece was cut.
    pub(crate) fn new(feeds: Feeds, by: By<F>, events: Receiver<Event, Global>) -> Supply<F>
        ensures pieces { result.pieces ≡ 0 }
        ensures iterations { result.iterations ≡ 0 }
    {
        Supply {
            intake: Intake { feeds, by, events },
            pieces: 0,
            iterations: 0,
            is_over: false,
        }
    }

    /// The next piece, if there is one: of full length, or, while no slice runs and nobody knows when more comes, of
    /// the iterations that are there. It is read into these rooms. If memory runs out, no piece follows.
    pub(crate) fn next<R: Wait, O: Outlet + Drop>(
        &mut self,
        rt: &R,
        alloc: Global,
        desk: &Desk<O>,
        shares: &[Share],
        rooms: Vec<Room>,
    ) -> Result<Option<Next>, AllocError>
        ensures number { IfOk result (λ next. IfSome next (λ n. n.number ≡ self.old.pieces)) }
        ensures pieces { IfOk result (λ next. IfSome next (λ _. self.new.pieces ≡ counted (self.old.pieces + 1))) }
        ensures iterations { IfOk result (λ next. IfSome next (λ n. self.new.iterations
            ≡ counted (self.old.iterations + n.iterations))) }
        ensures first { IfOk result (λ next. IfSome next (λ n. n.piece.first
            ≡ first_of self.old.intake.feeds.begins self.old.intake.feeds.overlap)) }
        ensures begins { IfOk result (λ next. IfSome next (λ n. self.new.intake.feeds.begins
            ≡ counted (self.old.intake.feeds.begins + n.iterations))) }
        ensures overlap { self.new.intake.feeds.overlap ≡ self.old.intake.feeds.overlap }
        ensures none { IfOk result (λ next. IfNone next (self.new.pieces ≡ self.old.pieces)) }
        ensures left { IfOk result (λ next. IfNone next (self.new.intake.feeds.begins ≡ self.old.intake.feeds.begins)) }
    {
        if self.is_over {
            return Ok(None);
        }
        let number = self.pieces;
        match self.intake.find(rt, alloc, desk, shares, rooms, number) {
            Ok(Some((iterations, piece))) => {
                self.pieces = number.saturating_add(1);
                self.iterations = self.iterations.saturating_add(iterations);
                Ok(Some(Next {
                    number,
                    iterations,
                    piece,
                }))
            }
            Ok(None) => {
                self.is_over = true;
                Ok(None)
            }
            Err(refusal) => {
                self.is_over = true;
                Err(refusal)
            }
        }
    }
}

impl<F: Read + Drop> Intake<F> {
    // The next piece, of this number, with how many iterations of its own it has.
    fn find<R: Wait, O: Outlet + Drop>(
        &mut self,
        rt: &R,
        alloc: Global,
        desk: &Desk<O>,
        shares: &[Share],
        rooms: Vec<Room>,
        number: u64,
    ) -> Result<Option<(u64, Piece)>, AllocError>
        ensures few { IfOk result (λ next. IfSome next (λ n. n.0 ≤ self.old.feeds.most)) }
        ensures first { IfOk result (λ next. IfSome next (λ n. n.1.first
            ≡ first_of self.old.feeds.begins self.old.feeds.overlap)) }
        ensures begins { IfOk result (λ next. IfSome next (λ n. self.new.feeds.begins
            ≡ counted (self.old.feeds.begins + n.0))) }
        ensures overlap { self.new.feeds.overlap ≡ self.old.feeds.overlap }
        ensures left { IfOk result (λ next. IfNone next (CutsAlike self.old.feeds self.new.feeds)) }
    {
        self.feeds.go_on_in(rooms)?;
        for _ in rt.forever() {
            let is_idle = match desk.progress(rt) {
                Progress::Written(pieces) => pieces == number,
                Progress::Writes => false,
                Progress::IsOver => return Ok(None),
            };
            let want = self.feeds.want()?;
            if self.may_cut(want, is_idle) {
                let given = desk.given(rt, alloc)?;
                let iterations = self.feeds.there();
                let piece = self.feeds.cut(alloc, iterations, shares, &given)?;
                return Ok(Some((iterations, piece)));
            }
            match want {
                Want::Never => {
                    self.settle(rt)?;
                    return Ok(None);
                }
                Want::Nothing => self.wait(rt)?,
                Want::Tape(_) | Want::Marks(_) => self.read(rt, want)?,
            }
        }
        Ok(None)
    }

    // Whether to cut the next piece. `is_idle` says whether all slices that were begun are done.
    fn may_cut(&self, want: Want, is_idle: bool) -> bool {
        match want {
            Want::Nothing => is_idle || !self.feeds.awaits_all(),
            // (nobody knows when more comes)
            Want::Tape(_) => is_idle && self.may_wait() && 0 < self.feeds.there(),
            Want::Marks(_) | Want::Never => false,
        }
    }

    // Whether a read may wait.
    fn may_wait(&self) -> bool {
        match self.by {
            By::Here(_) => false,
            By::Apart(_) => true,
        }
    }

    // Reads once what is wanted, or waits until the reading thread has read it.
    fn read<R: Wait>(&mut self, rt: &R, want: Want) -> Result<(), AllocError>
        ensures { CutsAlike self.old.feeds self.new.feeds }
    {
        match &mut self.by {
            By::Here(readers) => self.feeds.read(want, readers),
            By::Apart(reading) => {
                reading.ask(rt, want, self.feeds.missing(want))?;
                self.wait(rt)
            }
        }
    }

    // Waits until something was read, or a piece was written.
    fn wait<R: Wait>(&mut self, rt: &R) -> Result<(), AllocError>
        ensures { CutsAlike self.old.feeds self.new.feeds }
    {
        match (self.events.recv(rt), &mut self.by) {
            (Ok(Event::Read(taken)), By::Apart(reading)) => reading.take_in(&mut self.feeds, taken),
            (Ok(_), _) => Ok(()),
            (Err(_), _) => Err(AllocError),
        }
    }

    // Waits until the reading thread has nothing to read.
    fn settle<R: Wait>(&mut self, rt: &R) -> Result<(), AllocError>
        ensures { CutsAlike self.old.feeds self.new.feeds }
    {
        for _ in rt.forever() {
            match &self.by {
                By::Apart(reading) if !reading.is_idle() => {}
                _ => return Ok(()),
            }
            self.wait(rt)?;
        }
        Ok(())
    }
}

impl<F: Drop> Supply<F> {
    /// What is left of the tapes once no thread cuts pieces off them.
    pub(crate) fn into_rest<R: Wait>(self, rt: &R) -> Result<(Feeds, Vec<Readers<F>>), AllocError> {
        let Supply { intake, .. } = self;
        let Intake { feeds, by, .. } = intake;
        match by {
            By::Here(readers) => Ok((feeds, readers)),
            By::Apart(reading) => Ok((feeds, reading.finish(rt)?)),
        }
    }
}
