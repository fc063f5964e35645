//! A bounded buffer with one writer and several readers, each of which sees some items before its
//! place again.
#![tactic(auto)]

mod copies;
pub mod fault;
pub mod reader;
pub mod ring;

pub use fault::RingFault;
pub use reader::Reader;
pub use ring::Ring;
