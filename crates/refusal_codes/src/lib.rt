//! Refusals: the number and the name of each, and the text in which it is told.
//!
//! A fault is a [`Refusal`]: a number, which scripts and programs in C test, and a name beside it. Its text goes out in
//! the parts of a [`RefusalText`], so that running out of memory can be told too.
#![tactic(auto)]

pub mod refusal;
pub mod text;

pub use refusal::Refusal;
pub use text::{RefusalText, TextPart};
