//! Histories of calls: the calls of a plant with their replies, and a plant whose calls are recorded.
//!
//! An [`Entry`] is a call with who made it and what it returned. A [`Request`] is a call of a caller, with what a plant
//! takes of it. A [`Recorded`] plant has the history of all calls since it began: a run of the machine from there to
//! where the plant stands. An [`Engine`] is such a plant, or one of which nothing is recorded. `logs` compares what was
//! noted at desks with the history. Nothing here knows of threads or locks.
#![tactic(auto)]

pub mod engine;
pub mod entry;
mod lent_calls;
pub mod logs;
pub mod recorded;
pub mod request;

pub use engine::Engine;
pub use entry::{Answer, Call, CallerId, Entry, Feed, Setting, in_arc};
pub use logs::are_logs;
pub use recorded::Recorded;
pub use request::{Request, Response};
