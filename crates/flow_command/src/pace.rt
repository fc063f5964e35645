//! When something is due again and again.

use std::time::{Clock, Duration, Instant};

/// A clock that tells each time a period has passed. Once it fails, nothing is due any more.
#[derive(Drop)]
pub struct Pace<'a, C> {
    clock: &'a C,
    span: Option<Duration>,
    // When it was last due, or began.
    last: Option<Instant>,
}

impl<'a, C: Clock> Pace<'a, C> {
    /// From now on. Without a period nothing is ever due.
    pub fn new(clock: &'a C, span: Option<Duration>) -> Pace<'a, C> {
        let last = match span {
            Some(_) => Instant::now(clock).ok(),
            None => None,
        };
        Pace { clock, span, last }
    }

    /// The period, if there is one.
    pub fn span(&self) -> Option<Duration> {
        match self.last {
            Some(_) => self.span,
            None => None,
        }
    }

    /// Whether something is due.
    pub fn is_due(&mut self) -> bool {
        let (Some(last), Some(span)) = (self.last, self.span) else {
            return false;
        };
        let Ok(now) = Instant::now(self.clock) else {
            self.last = None;
            return false;
        };
        let is_due = span <= now.duration_since(last);
        if is_due {
            self.last = Some(now);
        }
        is_due
    }
}
