//! Whether the graph of a file is valid.

ghost use Rattle.std.specs.Prelude.{◌≡◌, ◌≢◌, ◌↔◌, Ok, Some, IfOk, IfErr};
ghost use Rattle.graph_model.specs.Graphs as graph_model;
ghost use Rattle.flowgraph.specs.declared.fault.Limit.TheVariants.{Blocks};
ghost use Rattle.flowgraph.specs.Fault.{told};
ghost use Rattle.graph_file.specs.Refusals.{IsRefused};
ghost use Rattle.graph_file.specs.Blocks.{drafted};
ghost use Rattle.graph_file.specs.File.{seen};
ghost use Rattle.graph_file.specs.Validity.{validated, named_block};

use crate::fault::{FileFault, FilePlace, graph_fault};
use crate::feed::Feed;
use crate::file::File;
use flowgraph::{BlockId, Graph, GraphFault, Valid};
use kinds::Kind;
use std::alloc::Global;

impl File {
    /// The valid graph of the file with its feeds, or why the graph as a whole is refused, or out of memory. It does
    /// not test the feeds.
    pub fn validate(self, alloc: Global) -> Result<(Valid<Kind>, Vec<Feed>), FileFault>
        ensures ok { IfOk result (λ valid. validated (seen self).graph ≡ Ok (drafted valid.0)) }
        ensures same { IfOk result (λ valid. (valid.0 ≡ self.graph) × (valid.1 ≡ self.feeds)) }
        ensures refused { IfErr result (IsRefused (validated (seen self).graph)) }
    {
        match self.graph.validate(alloc) {
            Ok(valid) => Ok((valid, self.feeds)),
            Err((graph, fault)) => Err(invalid(&graph, fault)),
        }
    }
}

// The refusal of a graph, with the name of the block that it is about.
fn invalid(graph: &Graph<Kind>, fault: GraphFault) -> FileFault
    requires { fault ≢ GraphFault.Memory → told Blocks (graph_model.graph_fault (drafted graph.now).net) ≡ Some fault }
    ensures refused { IsRefused (validated (drafted graph.now)) result }
    ensures memory { (result ≡ FileFault.Memory) ↔ (fault ≡ GraphFault.Memory) }
{
    let Some(block) = named_block(fault) else {
        return FileFault::Memory;
    };
    match std::str::from_utf8(graph.name(block)) {
        Ok(name) => graph_fault(FilePlace::Top, fault, name),
        // (the name of a block is ASCII)
        Err(_) => unreachable!(),
    }
}

// The block that a refusal of a whole graph names.
fn named_block(fault: GraphFault) -> Option<BlockId>
    ensures { result ≡ named_block fault }
{
    match fault {
        GraphFault::PortGap { block, .. }
        | GraphFault::TooFewPorts { block }
        | GraphFault::OneToOne { block }
        | GraphFault::Loop { block }
        | GraphFault::Gain { block } => Some(block),
        _ => None,
    }
}
