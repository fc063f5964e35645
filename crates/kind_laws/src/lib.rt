//! Each kind of block is lawful. Nobody has to read this crate: the equations of the kinds stand in `kind_model`, and
//! the laws in `Meaning` of `stream_model`; here is the proof of each kind's, which the type of the kind names in its
//! `impl Block`.
#![tactic(auto)]
