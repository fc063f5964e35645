//! The work of a claim, apart from the plant that gave it out: firings of one block, with all that they need.
#![tactic(auto)]

pub mod claimed;
mod copies;
pub mod job;
pub mod lent;
pub mod worked;

pub use claimed::Claimed;
pub use job::Job;
pub use lent::Lent;
pub use worked::Worked;
