//! Rounds that a request cuts short.

use crate::requests::Requests;
use flowgraph::BlockId;
use std::time::Duration;
use streaming::{Headway, Helpers, Step, Watch};

/// Helpers of a round that ends soon if a request waits.
#[derive(Drop)]
pub(crate) struct Hearing<'a, H, C> {
    pub(crate) helpers: &'a mut H,
    pub(crate) requests: &'a C,
    /// How many blocks share the firings of a round.
    pub(crate) blocks: u32,
}

impl<H: Watch, C: Requests> Watch for Hearing<'_, H, C> {
    fn pause(&self) -> Option<Duration> {
        self.helpers.pause()
    }

    fn show(&mut self, headway: Headway) {
        self.helpers.show(headway);
    }

    fn begins(&mut self, block: BlockId) {
        self.helpers.begins(block);
    }

    fn stepped(&mut self, block: BlockId, step: Step) {
        self.helpers.stepped(block, step);
    }

    fn end(&mut self) {
        self.helpers.end();
    }
}

impl<J, W, H: Helpers<J, W>, C: Requests> Helpers<J, W> for Hearing<'_, H, C> {
    fn begins_round(&mut self) -> u32 {
        let share = self.requests.most_firings() / self.blocks.max(1);
        self.helpers.begins_round().min(share.max(1))
    }

    fn are_called(&self) -> bool {
        self.helpers.are_called() && !self.requests.are_waiting()
    }

    fn is_called_away(&self) -> bool {
        self.requests.are_waiting() || self.helpers.is_called_away()
    }

    fn share(&mut self, block: BlockId) -> Option<u32> {
        self.helpers.share(block)
    }

    fn give(&mut self, job: J) -> Result<(), J> {
        self.helpers.give(job)
    }

    fn done(&mut self) -> Option<W> {
        self.helpers.done()
    }

    fn wait(&mut self) -> Option<W> {
        self.helpers.wait()
    }
}
