//! Where the threads find the turn, and where it ends if one of them fails.

ghost use Rattle.std.specs.Prelude.{◌≡◌, IfSome};

use crate::turn::{Outlet, Turn};
use std::alloc::{AllocError, Global};
use std::sync::{Condvar, Mutex, MutexGuard, Wait};

// The turn, unless a thread has it, and why no more is written.
#[derive(Drop)]
struct Slot<O: Outlet> {
    turn: Option<Turn<O>>,
    fault: Option<O::Fault>,
}

/// The place of the turn while nobody writes.
#[derive(Drop)]
pub(crate) struct Desk<O: Outlet> {
    slot: Mutex<Slot<O>>,
    turned: Condvar,
}

/// How far the writes are.
#[derive(Clone, Copy, Debug, PartialEq, Eq)]
pub(crate) enum Progress {
    /// All pieces before the one of this number are written, and nobody writes.
    Written(u64),
    /// A piece is being written.
    Writes,
    /// No more is written: a thread failed.
    IsOver,
}

impl<O: Outlet + Drop> Desk<O> {
    /// Nothing is written.
    pub(crate) fn new(turn: Turn<O>) -> Desk<O> {
        Desk {
            slot: Mutex::new(Slot {
                turn: Some(turn),
                fault: None,
            }),
            turned: Condvar::new(),
        }
    }

    /// How far the writes are.
    pub(crate) fn progress<R: Wait>(&self, rt: &R) -> Progress {
        let slot = self.slot.lock(rt);
        match (&slot.fault, &slot.turn) {
            (Some(_), _) => Progress::IsOver,
            (None, Some(turn)) => Progress::Written(turn.next),
            (None, None) => Progress::Writes,
        }
    }

    /// How many items each sink was given; none while a thread has the turn.
    pub(crate) fn given<R: Wait>(&self, rt: &R, alloc: Global) -> Result<Vec<u64>, AllocError> {
        let mut given = Vec::new(alloc);
        if let Some(turn) = &self.slot.lock(rt).turn {
            given.extend_from_slice(&turn.given)?;
        }
        Ok(given)
    }

    /// Waits until all pieces before the one of this number are written, and takes the turn. There is none after a
    /// thread failed.
    pub(crate) fn take<R: Wait>(&self, rt: &R, number: u64) -> Option<Turn<O>>
        ensures { IfSome result (λ turn. turn.next ≡ number) }
    {
        let mut slot = self.slot.lock(rt);
        for _ in rt.forever() {
            if slot.fault.is_some() {
                return None;
            }
            if let Some(turn) = slot.take(number) {
                return Some(turn);
            }
            slot = self.turned.wait(rt, slot);
        }
        None
    }

    /// Gives the turn to the thread with the next piece.
    pub(crate) fn put<R: Wait>(&self, rt: &R, turn: Turn<O>) {
        let mut slot = self.slot.lock(rt);
        slot.turn = Some(turn);
        self.done(slot);
    }

    /// Lets no thread write any more.
    pub(crate) fn fail<R: Wait>(&self, rt: &R, fault: O::Fault) {
        let mut slot = self.slot.lock(rt);
        slot.fault = Some(fault);
        self.done(slot);
    }

    fn done(&self, slot: MutexGuard<'_, Slot<O>>) {
        drop(slot);
        self.turned.notify_all();
    }

    /// The turn, once no thread is left, or why a thread failed; neither if it was taken from here before.
    pub(crate) fn end<R: Wait>(&self, rt: &R) -> Result<Option<Turn<O>>, O::Fault> {
        let mut slot = self.slot.lock(rt);
        match slot.fault.take() {
            Some(fault) => Err(fault),
            None => Ok(slot.turn.take()),
        }
    }
}

impl<O: Outlet + Drop> Slot<O> {
    // The turn, if it is that of the piece of this number.
    fn take(&mut self, number: u64) -> Option<Turn<O>>
        ensures { IfSome result (λ turn. turn.next ≡ number) }
    {
        let turn = self.turn.take()?;
        if turn.next == number {
            return Some(turn);
        }
        self.turn = Some(turn);
        None
    }
}
