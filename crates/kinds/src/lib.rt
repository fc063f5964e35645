//! The blocks of flowgraphs, and one type over all of them.
#![tactic(auto)]

pub mod kind;
pub mod kind_name;
pub mod sink;
pub mod source;

pub use kind::Kind;
pub use kind_name::KindName;
pub use sink::{NullSink, VectorSink};
pub use source::VectorSource;
