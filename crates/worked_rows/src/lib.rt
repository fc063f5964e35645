//! Worked rows of the definitions: functions with empty bodies, whose clauses say what a definition gives on numbers
//! that were worked out by hand.
#![tactic(auto)]

pub mod graphs;
pub mod kernels;
pub mod kinds;
pub mod machine;
pub mod rates;
