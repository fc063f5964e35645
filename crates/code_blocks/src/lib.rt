//! Blocks that check and code frames and symbols.
#![tactic(auto)]

pub mod crc;
pub mod crc_append;
pub mod crc_check;
mod division;
pub mod state_machine;
pub mod viterbi;

pub use crc::Crc;
pub use crc_append::CrcAppend;
pub use crc_check::CrcCheck;
pub use kind_model::{BitOrder, Checksum};
pub use state_machine::StateMachine;
pub use viterbi::{Trellis, Viterbi};
