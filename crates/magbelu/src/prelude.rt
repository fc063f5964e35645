//! What most programs use, by `use magbelu::prelude::*;`.

pub use crate::blocks::{
    Add, AddConst, Fir, Kind, MultiplyConst, NullSink, Taps, Value, VectorSink, VectorSource,
};
pub use crate::custom::Either;
pub use crate::error::Error;
pub use crate::files::{OpensPlants, read_graph};
pub use crate::graphs::{BlockId, Graph, Options, Policy};
pub use crate::plants::{Claim, Piece, Pipeline, Plant, Settled, Step, StreamingPlant};
pub use crate::runs::{Outcome, RunError, RunOptions, TopBlock};
pub use crate::streams::{ItemFault, ItemType, Items, Mark, Tag, TagKey};
pub use refusal_codes::Refusal;
