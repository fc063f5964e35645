//! A box of requests to a running pipeline. Any number of callers, on threads of their own, put requests into it, and
//! each waits for its answer.
//!
//! ```text
//! let bell = Arc::new(alloc, Bell::new())?;
//! let (requests, caller) = request_box(rt, alloc, bell)?;
//! thread::spawn(&rt, move || caller.set(filter, None, taps))?;
//! let ended = pipeline.run_asked(alloc, &mut NoHelpers, &mut AllReady, &mut requests, &mut Unwatched);
//! ```
//!
//! A caller has one request in the box at a time. So the box holds at most one of each caller, and each gets its
//! answers in the order of its requests. Once the box is dropped, each call, also one that waits, learns that nobody
//! answers any more. Each request has its own channel for its answer, whose rule lets no other answer through. So what
//! a call returns is an answer to what it asked. No clause speaks of the channel by which requests come; those of
//! `Requests` say what was taken out of the box and answered.
#![tactic(auto)]

mod bell;
mod caller;
mod requests;
mod way_back;
mod word;

pub use bell::Bell;
pub use caller::{CallFault, Caller};
pub use requests::{RequestBox, request_box};
