//! The pauses between two calls of a watch.

use plant::Watch;
use scheduling::stopwatch::now;
use std::time::{Clock, Duration, Instant};

/// The pauses between two calls of a watch, for who has other work meanwhile.
#[derive(Clone, Copy)]
pub struct Pauses {
    pause: Option<Duration>,
    began: Option<Instant>,
}

impl Pauses {
    /// The first pause begins here. If the watch wants none, there are none, and no clock is read.
    pub fn of<R: Clock, W: Watch>(rt: &R, watch: &W) -> Pauses {
        let pause = watch.pause();
        let began = if pause.is_some() { now(rt) } else { None };
        Pauses { pause, began }
    }

    /// How long one may sleep without missing the end of a pause.
    pub fn length(&self) -> Option<Duration> {
        self.pause
    }

    /// Whether a pause is over. Then the next one begins.
    pub fn end<R: Clock>(&mut self, rt: &R) -> bool {
        let Some(pause) = self.pause else {
            return false;
        };
        let time = now(rt);
        let (Some(began), Some(ends)) = (self.began, time) else {
            return false;
        };
        if ends.saturating_duration_since(began) < pause {
            return false;
        }
        self.began = time;
        true
    }
}
