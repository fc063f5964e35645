//! The progress line on a terminal.

use super::pace::Pace;
use plant::{Headway, Watch};
use std::io::Write;
use std::time::{Clock, Duration};

// The milliseconds between two lines, and before the first.
const PAUSE: u64 = 250;
// The milliseconds between two looks at a run in threads.
const LOOK: u64 = 50;

/// A line on a screen, written anew as a run goes on. A failed write does not matter to the run.
#[derive(Drop)]
pub struct Terminal<'a, C, S> {
    // When a line is due.
    pace: Pace<'a, C>,
    screen: S,
    // Whether a line stands on the screen.
    is_shown: bool,
}

impl<'a, C: Clock, S: Write> Terminal<'a, C, S> {
    /// It shows nothing without permission, or if the clock fails.
    pub fn new(clock: &'a C, screen: S, may_show: bool) -> Terminal<'a, C, S> {
        let pause = if may_show {
            Some(Duration::from_millis(PAUSE))
        } else {
            None
        };
        Terminal {
            pace: Pace::new(clock, pause),
            screen,
            is_shown: false,
        }
    }
}

impl<C: Clock, S: Write> Watch for Terminal<'_, C, S> {
    fn pause(&self) -> Option<Duration> {
        match self.pace.span() {
            Some(_) => Some(Duration::from_millis(LOOK)),
            None => None,
        }
    }

    fn show(&mut self, headway: Headway) {
        if self.pace.is_due() {
            let Headway { given, fed } = headway;
            let _ = write!(self.screen, "\rflow: {given} of {fed} items");
            self.is_shown = true;
        }
    }

    fn end(&mut self) {
        if self.is_shown {
            // Back to the start of the line, and clear to its end.
            let _ = self.screen.write_all(b"\r\x1b[K");
            self.is_shown = false;
        }
    }
}
