//! Conversions into an error, for `?`: of each fault, and of a failed allocation. They drop what a failed call hands
//! back.

ghost use Rattle.std.specs.Prelude.{◌≡◌};
ghost use Rattle.magbelu.specs.declared.error.Error.TheVariants.{Items, Block, Graph, Plant, NoJob, File, Pipeline, Run, Memory};
ghost use Rattle.threads.specs.Fault as threads;

use crate::error::Error;
use block_parameters::ParamFault;
use block_trait::Block;
use flowgraph::{Graph, GraphFault, Valid};
use graph_file::FileFault;
use items::ItemFault;
use pipeline::PipelineFault;
use plant::{Job, PlantFault, Worked};
use std::alloc::{AllocError, AllocFailed};
use streaming::StreamingPlant;
use threads::RunFault;

impl From<ItemFault> for Error {
    ghost from_gives = { λ fault e. e ≡ Items fault };

    fn from(fault: ItemFault) -> Error {
        Error::Items(fault)
    }
}

impl From<ParamFault> for Error {
    ghost from_gives = { λ fault e. e ≡ Block fault };

    fn from(fault: ParamFault) -> Error {
        Error::Block(fault)
    }
}

impl From<GraphFault> for Error {
    ghost from_gives = { λ fault e. e ≡ Graph fault };

    fn from(fault: GraphFault) -> Error {
        Error::Graph(fault)
    }
}

/// The refused graph is dropped. To correct it and try again, match on the pair instead.
impl<B: Block> From<(Graph<B>, GraphFault)> for Error {
    ghost from_gives = { λ refusal e. e ≡ Graph refusal.1 };

    fn from(refusal: (Graph<B>, GraphFault)) -> Error {
        Error::Graph(refusal.1)
    }
}

/// The graph is dropped. To try again, match on the pair instead.
impl<B: Block> From<(Valid<B>, AllocError)> for Error {
    ghost from_gives = { λ _ e. e ≡ Memory };

    fn from(_refusal: (Valid<B>, AllocError)) -> Error {
        Error::Memory
    }
}

impl From<PlantFault> for Error {
    ghost from_gives = { λ fault e. e ≡ Plant fault };

    fn from(fault: PlantFault) -> Error {
        Error::Plant(fault)
    }
}

/// For `Plant::commit`. It drops the refused work, which is not that of the claim in flight.
impl<B: Block> From<Worked<B>> for Error {
    ghost from_gives = { λ _ e. e ≡ NoJob };

    fn from(_refused: Worked<B>) -> Error {
        Error::NoJob
    }
}

/// For `Plant::abandon`. It drops the refused job, which is not the claim in flight.
impl<B: Block> From<Job<B>> for Error {
    ghost from_gives = { λ _ e. e ≡ NoJob };

    fn from(_refused: Job<B>) -> Error {
        Error::NoJob
    }
}

impl From<FileFault> for Error {
    ghost from_gives = { λ fault e. e ≡ File fault };

    fn from(fault: FileFault) -> Error {
        Error::File(fault)
    }
}

impl From<PipelineFault> for Error {
    ghost from_gives = { λ fault e. e ≡ Pipeline fault };

    fn from(fault: PipelineFault) -> Error {
        Error::Pipeline(fault)
    }
}

/// For `Pipeline::new`. The plant is dropped. To try again, match on the pair instead.
impl<B: Block> From<(StreamingPlant<B>, AllocError)> for Error {
    ghost from_gives = { λ _ e. e ≡ Memory };

    fn from(_refusal: (StreamingPlant<B>, AllocError)) -> Error {
        Error::Memory
    }
}

/// The plant in the fault is dropped. To run it again, match on the fault instead.
impl<B: Block> From<RunFault<B>> for Error {
    ghost from_gives = { λ fault e. e ≡ Run (threads.error_of fault) };

    fn from(fault: RunFault<B>) -> Error {
        Error::Run(fault.error())
    }
}

impl From<AllocError> for Error {
    ghost from_gives = { λ _ e. e ≡ Memory };

    fn from(_refusal: AllocError) -> Error {
        Error::Memory
    }
}

/// The value that could not be stored is dropped.
impl<T: Drop> From<AllocFailed<T>> for Error {
    ghost from_gives = { λ _ e. e ≡ Memory };

    fn from(_refusal: AllocFailed<T>) -> Error {
        Error::Memory
    }
}
