//! What the threads that run slices do.

use crate::desk::Desk;
use crate::piece::{Job, Opens};
use crate::reading::Event;
use crate::room::Room;
use crate::supply::{Next, Supply};
use crate::turn::{Made, Outlet};
use crossbeam_channel::Sender;
use std::alloc::{AllocError, Global};
use std::io::Read;
use std::sync::{Arc, Mutex, Wait};

/// What all threads share.
#[derive(Drop)]
pub(crate) struct Shared<F: Drop, O: Outlet> {
    /// Where the pieces come from; none once no thread is left.
    pub(crate) supply: Mutex<Option<Supply<F>>>,
    pub(crate) desk: Desk<O>,
    /// Wakes the thread that waits for the next piece.
    pub(crate) tell: Sender<Event, Global>,
}

/// How many iterations are in pieces, and how many are written.
#[derive(Clone, Copy, Debug, PartialEq, Eq)]
pub(crate) struct Step {
    pub(crate) read: u64,
    pub(crate) written: u64,
}

/// What a thread needs to run slices.
#[derive(Drop)]
pub(crate) struct Worker<P: Drop, F: Drop, O: Outlet> {
    pub(crate) opener: P,
    pub(crate) job: Job,
    pub(crate) shared: Arc<Shared<F, O>, Global>,
    /// Takes a step after each piece.
    pub(crate) steps: Sender<Step, Global>,
}

impl<P: Opens + Drop, F: Read + Drop, O: Outlet + Drop> Worker<P, F, O> {
    /// Runs slices on pieces until no more can come.
    pub(crate) fn serve<R: Wait>(&self, rt: &R, alloc: Global) {
        let (mut rooms, mut given) = (Vec::new(alloc), Vec::new(alloc));
        for _ in rt.forever() {
            let (next, read) = match self.fetch(rt, alloc, rooms) {
                Ok(Some(fetched)) => fetched,
                Ok(None) => return,
                Err(number) => return self.fail(rt, number),
            };
            let Next {
                number,
                iterations,
                piece,
            } = next;
            let Ok(made) = self.job.run(alloc, &self.opener, &piece, given) else {
                return self.fail(rt, number);
            };
            rooms = piece.into_rooms(alloc);
            let made = Made {
                number,
                iterations,
                given: made,
            };
            if !self.write(rt, &made, read) {
                return;
            }
            given = made.given;
        }
    }

    // The next piece, with how many iterations are in pieces then; or the number of the piece that memory is missing
    // for.
    fn fetch<R: Wait>(
        &self,
        rt: &R,
        alloc: Global,
        rooms: Vec<Room>,
    ) -> Result<Option<(Next, u64)>, u64> {
        let mut slot = self.shared.supply.lock(rt);
        let Some(supply) = &mut *slot else {
            return Ok(None);
        };
        match supply.next(rt, alloc, &self.shared.desk, &self.job.shares, rooms) {
            Ok(Some(next)) => Ok(Some((next, supply.iterations))),
            Ok(None) => Ok(None),
            Err(_) => Err(supply.pieces),
        }
    }

    // Writes the result of a piece when its turn comes, and returns whether the run goes on. So many iterations are in
    // pieces.
    fn write<R: Wait>(&self, rt: &R, made: &Made, read: u64) -> bool {
        let desk = &self.shared.desk;
        let Some(turn) = desk.take(rt, made.number) else {
            return false;
        };
        let mut turn = turn;
        let written = turn.write(&self.job.shares, made);
        let step = Step {
            read,
            written: turn.iterations,
        };
        let goes_on = written.is_ok();
        match written {
            Ok(()) => desk.put(rt, turn),
            Err(fault) => desk.fail(rt, fault),
        }
        self.tell(rt, step);
        goes_on
    }

    // Ends the run, as memory is missing for the piece of this number. The pieces before it are written first.
    fn fail<R: Wait>(&self, rt: &R, number: u64) {
        if self.shared.desk.take(rt, number).is_some() {
            self.shared.desk.fail(rt, AllocError.into());
            let _ = self.shared.tell.try_send(rt, Event::Turned);
        }
    }

    // (a failed send loses nothing: what was told before is not taken yet)
    fn tell<R: Wait>(&self, rt: &R, step: Step) {
        let _ = self.shared.tell.try_send(rt, Event::Turned);
        let _ = self.steps.try_send(rt, step);
    }
}
