//! Why a pipeline stops.

ghost use Rattle.std.specs.Prelude.{◌≡◌};
ghost use Rattle.pipeline.specs.declared.fault.PipelineFault.TheVariants.{Memory};
ghost use Rattle.pipeline.specs.Faults.{of_plant, row_of, text_of};

use flowgraph::BlockId;
use refusal_codes::Refusal;
use std::alloc::AllocError;
use std::error::Error;
use std::{fmt, io};
use streaming::PlantFault;

/// Why a pipeline stopped, or refused to join a block. Each names the block.
#[derive(Debug, Drop)]
pub enum PipelineFault {
    /// The plant refuses the block, or what was read for it.
    Plant(BlockId, PlantFault),
    /// It is joined to a reader or to writers already.
    Joined(BlockId),
    /// It is joined to no reader of items that marks could lie on.
    NotJoined(BlockId),
    /// Its reader failed.
    Read(BlockId, io::Error),
    /// What was read for it ends within an item.
    CutItem(BlockId),
    /// The reader of its marks failed.
    ReadMarks(BlockId, io::Error),
    /// The line of this number, from 1, of its marks is neither a mark nor `until` an item.
    BadMark(BlockId, u64),
    /// The item of the line of this number lies before that of the line above, or it is a mark on no item that its reader
    /// gives.
    MarkPlace(BlockId, u64),
    /// The writer of its items failed.
    WriteItems(BlockId, io::Error),
    /// The writer of its tags failed.
    WriteTags(BlockId, io::Error),
    /// Memory ran out.
    Memory,
}

impl PipelineFault {
    // What a plant refuses of a block.
    pub(crate) fn of_plant(block: BlockId, fault: PlantFault) -> PipelineFault
        ensures { result ≡ of_plant block fault }
    {
        match fault {
            PlantFault::Memory => PipelineFault::Memory,
            _ => PipelineFault::Plant(block, fault),
        }
    }
}

impl Refusal for PipelineFault {
    ghost row = { row_of };

    fn row(&self) -> (u32, &'static str) {
        match self {
            PipelineFault::Plant(_, fault) => fault.row(),
            PipelineFault::Joined(_) => (34, "Joined"),
            PipelineFault::NotJoined(_) => (35, "NotJoined"),
            PipelineFault::Read(..) | PipelineFault::ReadMarks(..) => (51, "Read"),
            PipelineFault::BadMark(..) => (50, "BadLine"),
            PipelineFault::MarkPlace(..) => (25, "TagPlace"),
            PipelineFault::WriteItems(..) | PipelineFault::WriteTags(..) => (52, "Write"),
            PipelineFault::CutItem(_) => (53, "CutItem"),
            PipelineFault::Memory => (32, "Memory"),
        }
    }
}

impl fmt::Display for PipelineFault {
    ghost output = { text_of };

    fn fmt<W: fmt::Write>(&self, f: &mut fmt::Formatter<W>) -> fmt::Result {
        match self {
            PipelineFault::Plant(_, fault) => write!(f, "{fault}"),
            PipelineFault::Joined(_) => f.write_str("the block is joined already"),
            PipelineFault::NotJoined(_) => f.write_str("the block is joined to no reader of items"),
            PipelineFault::Read(_, error) => write!(f, "reading failed: {error}"),
            PipelineFault::ReadMarks(_, error) => write!(f, "reading marks failed: {error}"),
            PipelineFault::BadMark(_, line) => write!(
                f,
                "line {line} of the marks is no such line"
            ),
            PipelineFault::MarkPlace(_, line) => {
                write!(
                    f,
                    "line {line} of the marks is of no item that it may be of"
                )
            }
            PipelineFault::WriteItems(_, error) => write!(f, "writing items failed: {error}"),
            PipelineFault::WriteTags(_, error) => write!(f, "writing tags failed: {error}"),
            PipelineFault::CutItem(_) => f.write_str("the input ends within an item"),
            PipelineFault::Memory => f.write_str("out of memory"),
        }
    }
}

impl Error for PipelineFault {}

impl From<AllocError> for PipelineFault {
    ghost from_gives = { λ _ e. e ≡ Memory };

    fn from(_refusal: AllocError) -> PipelineFault {
        PipelineFault::Memory
    }
}
