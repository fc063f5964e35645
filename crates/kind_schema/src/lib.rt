//! The keys of each kind in a graph file, and the block that a table of the file describes.
#![tactic(auto)]

mod code;
pub mod fault;
pub mod key;
pub mod keys;
pub mod kind_parameters;
mod make;
mod make_codes;
mod make_lists;
mod parameter_values;
pub mod range;
pub mod read;
pub mod table;

pub use fault::KeyFault;
pub use key::{Key, ValueForm};
pub use keys::{Keys, keys_of};
pub use kind_parameters::{parameters_of, types_of};
pub use range::{ItemTypes, Range};
pub use read::read_kind;
