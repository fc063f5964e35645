//! Watches and observers of a run between files.

use flowgraph::BlockId;
use run_stats::Observer;
use std::alloc::{AllocError, Global};
use std::sync::Arc;
use std::time::Duration;
use streaming::{Headway, Helpers, Step, Watch};

/// The watch sees how far the run is. If the run is measured or traced, the observer is told of its steps.
#[derive(Drop)]
pub struct Onlookers<'a, R: Drop, W> {
    pub watch: &'a mut W,
    pub observer: Option<Arc<Observer<R>, Global>>,
}

impl<R: Drop, W> Onlookers<'_, R, W> {
    /// The observer, for one more thread; none if the run has none.
    pub fn share_observer(&self) -> Result<Option<Arc<Observer<R>, Global>>, AllocError> {
        match &self.observer {
            Some(observer) => Ok(Some(Arc::try_clone(observer)?)),
            None => Ok(None),
        }
    }
}

/// Nobody helps: the caller makes each step, and this watch is told of it.
#[derive(Drop)]
pub struct Alone<W> {
    steps: W,
}

impl<W: Watch> Alone<W> {
    /// With this watch.
    pub fn new(steps: W) -> Alone<W> {
        Alone { steps }
    }
}

impl<W: Watch> Watch for Alone<W> {
    fn pause(&self) -> Option<Duration> {
        self.steps.pause()
    }

    fn show(&mut self, headway: Headway) {
        self.steps.show(headway);
    }

    fn begins(&mut self, block: BlockId) {
        self.steps.begins(block);
    }

    fn stepped(&mut self, block: BlockId, step: Step) {
        self.steps.stepped(block, step);
    }

    fn end(&mut self) {
        self.steps.end();
    }
}

impl<J, D, W: Watch> Helpers<J, D> for Alone<W> {}
