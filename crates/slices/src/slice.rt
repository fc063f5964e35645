//! A slice of a run: where it begins to read, and what it drops.
ghost use Rattle.std.specs.Prelude.{◌≡◌, ◌≤◌, ◌⊎◌, ◌^◌, ℕ, List, IfOk};
ghost use Rattle.stream_model.specs.Network.{Network};
ghost use Rattle.slices.specs.declared.look_back.LookBack.{LookBack};
ghost use Rattle.slices.specs.Plans.{IsPlan};
ghost use Rattle.slices.specs.Cuts.{part_of, IsSlice};

use crate::MOST_ITERATIONS;
use crate::plan::{Plan, Sink};
use flowgraph::BlockId;
use std::alloc::{AllocError, Global};

/// What a slice gives a sink.
#[derive(Clone, Copy, Debug, PartialEq, Eq)]
pub struct Part {
    pub block: BlockId,
    /// How many of its items are dropped.
    pub drop: u64,
    /// The place of the next item in the whole stream.
    pub stands: u64,
}

/// A slice of a run.
#[derive(Debug, Drop)]
pub struct Slice {
    /// How many iterations of each tape it leaves out. Of a source these are `from` times its period items.
    pub from: u64,
    /// What it gives the sinks, in the order of the plan.
    pub parts: Vec<Part>,
}

/// What a slice gives a sink if it begins at one iteration, and reads from another on. The first slice drops nothing.
fn given_to(sink: &Sink, begins: u64, from: u64) -> Part
    requires drop { sink.now.drop ≤ 2 ^ 59 }
    requires period { sink.now.period ≤ 65536 }
    requires from { from ≤ MOST_ITERATIONS }
    ensures { result ≡ part_of begins from sink.now }
{
    let block = sink.block;
    if begins == 0 {
        return Part {
            block,
            drop: 0,
            stands: 0,
        };
    }
    Part {
        block,
        drop: sink.drop,
        stands: sink.drop + from * sink.period,
    }
}

impl Plan {
    /// The slice that begins at an iteration: at the first, or not before the overlap. It runs on the rest of the
    /// tapes, with blocks that go on where they stand (`later`). After the dropped items it gives each sink what the
    /// whole run gives from there on. It fails only if the allocator refuses.
    pub fn slice(&self, alloc: Global, begins: u64) -> Result<Slice, AllocError>
        ghost of: { Network × List ℕ × List LookBack }
        requires plan { IsPlan of.0 of.1 of.2 self.now }
        requires begins { (begins ≡ 0) ⊎ (self.now.overlap ≤ begins) }
        requires few { begins ≤ MOST_ITERATIONS }
        ensures { IfOk result (IsSlice of.0 of.1 of.2 self.now begins) }
    {
        let from = begins.saturating_sub(self.overlap);
        let mut parts = Vec::with_capacity(alloc, self.sinks.len())?;
        for sink in &self.sinks {
            parts.push(given_to(sink, begins, from))?;
        }
        Ok(Slice { from, parts })
    }
}
