//! Reports of times while a run goes on.

use crate::pace::Pace;
use flowgraph::BlockId;
use plant::{Headway, Step, Watch};
use run_stats::{Form, Measured};
use std::io::Write;
use std::time::{Clock, Duration};

/// A watch that reports the times of a run so far, each time a period has passed. A failed write does not matter to the
/// run.
#[derive(Drop)]
pub struct Periodic<'a, R, W> {
    pace: Pace<'a, HostRuntime>,
    rt: &'a HostRuntime,
    measured: &'a Option<Measured<R>>,
    form: Option<Form>,
    watch: &'a mut W,
}

impl<'a, R: Clock + Copy, W: Watch> Periodic<'a, R, W> {
    /// Reports times beside this watch, every so many seconds, if the words ask for that. It reports none if the clock
    /// fails.
    pub fn new(
        rt: &'a HostRuntime,
        measured: &'a Option<Measured<R>>,
        form: Option<Form>,
        every: Option<u64>,
        watch: &'a mut W,
    ) -> Periodic<'a, R, W> {
        Periodic {
            pace: Pace::new(rt, every.map(Duration::from_secs)),
            rt,
            measured,
            form,
            watch,
        }
    }

    fn tell(&mut self) {
        let (Some(measured), Some(form)) = (self.measured, self.form) else {
            return;
        };
        if let Ok(text) = measured.report(self.rt.alloc(), form) {
            // (the progress line goes, and comes again)
            self.watch.end();
            let mut errors = self.rt.stderr();
            let _ = errors.write_all(&text);
        }
    }
}

impl<R: Clock + Copy, W: Watch> Watch for Periodic<'_, R, W> {
    fn pause(&self) -> Option<Duration> {
        match (self.pace.span(), self.watch.pause()) {
            (Some(span), Some(pause)) => Some(span.min(pause)),
            (Some(span), None) => Some(span),
            (None, pause) => pause,
        }
    }

    fn show(&mut self, headway: Headway) {
        self.watch.show(headway);
        if self.pace.is_due() {
            self.tell();
        }
    }

    fn begins(&mut self, block: BlockId) {
        self.watch.begins(block);
    }

    fn stepped(&mut self, block: BlockId, step: Step) {
        self.watch.stepped(block, step);
    }

    fn end(&mut self) {
        self.watch.end();
    }
}
