//! Times that are measured. A clock that cannot be read measures nothing, and what took no time is cheap.

use std::time::{Clock, Instant};

/// What the clock shows, if it can be read.
pub fn now<R: Clock>(rt: &R) -> Option<Instant> {
    Instant::now(rt).ok()
}

/// How many nanoseconds passed since then.
pub fn nanos_since<R: Clock>(rt: &R, start: Option<Instant>) -> u64 {
    match start {
        Some(_) => nanos_between(start, now(rt)),
        None => 0,
    }
}

/// How many nanoseconds lie between, if the clock could be read.
pub fn nanos_between(start: Option<Instant>, end: Option<Instant>) -> u64 {
    match (start, end) {
        (Some(start), Some(end)) => {
            let span = end.saturating_duration_since(start);
            u64::try_from(span.as_nanos()).unwrap_or(u64::MAX)
        }
        _ => 0,
    }
}
