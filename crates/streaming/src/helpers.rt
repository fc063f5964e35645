//! Helpers do work of a streaming plant beside its caller.

use plant::{BlockId, Headway, Watch};
use std::time::Duration;

/// Helpers of [`StreamingPlant::round_with`](crate::StreamingPlant::round_with): they take jobs `J`, do them elsewhere,
/// and bring back the results, `W`. Like a watch, they are told of the steps that the caller makes.
///
/// They promise nothing. A round accepts only results of claims in flight. Others are dropped; lost ones are done
/// again. By default nobody helps.
pub trait Helpers<J, W>: Watch {
    /// A round begins. It returns how many firings a block has at most in the round's first steps. The caller makes
    /// these, and a watch is told of them.
    fn begins_round(&mut self) -> u32 {
        u32::MAX
    }

    /// Whether there is work that they could do.
    fn are_called(&self) -> bool {
        false
    }

    /// Whether the caller is wanted elsewhere. Then the round ends once all that they were given has come back.
    fn is_called_away(&self) -> bool {
        false
    }

    /// How many firings of a block they take at once. With `None` the caller steps it.
    fn share(&mut self, _block: BlockId) -> Option<u32> {
        None
    }

    /// Takes a job, or returns it if nobody is free.
    fn give(&mut self, job: J) -> Result<(), J> {
        Err(job)
    }

    /// Work that is done, if there is some. It does not wait.
    fn done(&mut self) -> Option<W> {
        None
    }

    /// Waits for work that is done. There is none once all that was given came back.
    fn wait(&mut self) -> Option<W> {
        None
    }
}

/// Nobody helps.
#[derive(Debug, Drop)]
pub struct NoHelpers;

impl Watch for NoHelpers {
    fn pause(&self) -> Option<Duration> {
        None
    }

    fn show(&mut self, _headway: Headway) {}

    fn end(&mut self) {}
}

impl<J, W> Helpers<J, W> for NoHelpers {}
