//! One error type, to which `?` converts the fault of any call.

ghost use Rattle.magbelu.specs.Errors.{row_of, text_of};

use block_parameters::ParamFault;
use flowgraph::GraphFault;
use graph_file::FileFault;
use items::ItemFault;
use pipeline::PipelineFault;
use plant::PlantFault;
use refusal_codes::Refusal;
use std::fmt;
use threads::RunError;

/// Why a call was refused, why a pipeline stopped, or why a run in threads failed. It has the number, name and text of
/// the fault that it was made of. Numbers are 1 to 12, 20 to 35, 40 to 44, 50 to 53, 58, or 60 to 62; names are as
/// `Loop` or `Memory`.
#[derive(Debug, Drop, thiserror::Error)]
pub enum Error {
    /// Items could not be made.
    Items(ItemFault),
    /// A block could not be made.
    Block(ParamFault),
    /// A graph is refused, or a block or a connection of it.
    Graph(GraphFault),
    /// A call of a plant, of a top block or at a desk is refused.
    Plant(PlantFault),
    /// A job or its work is not that of its block's claim in flight.
    NoJob,
    /// A key of a tag is not 1 to 16 ASCII letters, digits, `_`, `.` and `-`.
    BadKey,
    /// A graph file is refused.
    File(FileFault),
    /// A pipeline stopped, or is joined already.
    Pipeline(PipelineFault),
    /// A run in threads failed.
    Run(RunError),
    /// Out of memory.
    Memory,
}

impl Refusal for Error {
    ghost row = { row_of };

    fn row(&self) -> (u32, &'static str) {
        match self {
            Error::Items(fault) => fault.row(),
            Error::Block(fault) => fault.row(),
            Error::Graph(fault) => fault.row(),
            Error::Plant(fault) => fault.row(),
            Error::NoJob => (30, "NoJob"),
            Error::BadKey => (58, "BadKey"),
            Error::File(fault) => fault.row(),
            Error::Pipeline(fault) => fault.row(),
            Error::Run(fault) => fault.row(),
            Error::Memory => (32, "Memory"),
        }
    }
}

impl fmt::Display for Error {
    ghost output = { text_of };

    fn fmt<W: fmt::Write>(&self, f: &mut fmt::Formatter<W>) -> fmt::Result {
        match self {
            Error::Items(fault) => write!(f, "{fault}"),
            Error::Block(fault) => write!(f, "{fault}"),
            Error::Graph(fault) => write!(f, "{fault}"),
            Error::Plant(fault) => write!(f, "{fault}"),
            Error::NoJob => write!(f, "the block has no such job"),
            Error::BadKey => write!(f, "a tag's key is 1 to 16 letters, digits, `_`, `.` or `-`"),
            Error::File(fault) => write!(f, "{fault}"),
            Error::Pipeline(fault) => write!(f, "{fault}"),
            Error::Run(fault) => write!(f, "{fault}"),
            Error::Memory => write!(f, "out of memory"),
        }
    }
}
