//! Lemmas by which blocks are shown lawful: those of a block with a rate, a history, a setting, a memory and an
//! equation, and those of what a block is given, windows and the past of an item.
//!
//! Nobody has to read this crate: the laws stand in `stream_model`, in its `Meaning`.
#![tactic(auto)]
