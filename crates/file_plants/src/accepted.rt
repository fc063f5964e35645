//! Which graph files are accepted.
ghost use Rattle.std.specs.Prelude.{◌≡◌, ◌↔◌, Some, IfOk, IfSome, IsNone, IsSome, IsUtf8};
ghost use Rattle.file_plants.specs.Accepted.{IsAccepted, IsWhy};
ghost use Rattle.graph_file.specs.Refusals.{told};

use crate::opening::OpensPlants;
use graph_file::{FileFault, read_graph};
use std::alloc::{AllocError, Global};

/// How far a file is read.
#[derive(Clone, Copy, Debug, PartialEq, Eq)]
pub enum Depth {
    /// Up to its valid graph.
    Graph,
    /// Up to its plant, with the feeds on the tapes.
    Plant,
}

/// Why a file is refused, or `None` if it is not. It fails only if the allocator refuses.
pub fn fault_of(alloc: Global, text: &[u8], depth: Depth) -> Result<Option<FileFault>, AllocError>
    ensures accepted { IfOk result (λ fault. IsNone fault ↔ IsAccepted depth text.now) }
    ensures why { IfOk result (λ fault. IfSome fault (IsWhy depth text.now)) }
    ensures encoding { ¬ (IsUtf8 text.now) → IfOk result (λ fault. fault ≡ Some FileFault.Syntax) }
{
    let file = match read_graph(alloc, text) {
        Ok(file) => file,
        Err(fault) => return unless_memory(fault),
    };
    match depth {
        Depth::Graph => match file.validate(alloc) {
            Ok(_graph) => Ok(None),
            Err(fault) => unless_memory(fault),
        },
        Depth::Plant => match file.open(alloc) {
            Ok(_plant) => Ok(None),
            Err(fault) => unless_memory(fault),
        },
    }
}

// A fault of the file itself.
fn unless_memory(fault: FileFault) -> Result<Option<FileFault>, AllocError>
    ensures { IfOk result (λ kept. (kept ≡ Some fault) × IsSome (told fault)) }
{
    match fault {
        FileFault::Memory => Err(AllocError),
        fault => Ok(Some(fault)),
    }
}
