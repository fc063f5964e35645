//! Gates that workers pass, and that are told of turns.

use firing_rules::Need;
use flowgraph::BlockId;
use std::alloc::Global;
use std::sync::Arc;

/// Is told of a run, for tests and probes; `Open` does nothing. Only `pass` is called with no lock held, and may wait.
/// The others do nothing by default, and may be called with the lock held: a body must be short, and wait for nobody.
pub trait Gate {
    /// Firings of this block were claimed, from this one on, counted from 0; their work comes next. A gate that waits
    /// here delays that work, and whoever waits for its items.
    fn pass(&self, block: BlockId, firing: u64);

    /// All workers slept or had left though a block could act, so all are woken to look again. It should never be
    /// called; a probe may count it.
    fn missed(&self) {}

    /// A turn of this block begins: the work of a claim. If one thread acts for several blocks, it is a step: a claim,
    /// its work and its commit.
    fn begins(&self, _block: BlockId) {}

    /// The last turn of this block ended with so many firings. A step without firings makes no such call.
    fn worked(&self, _block: BlockId, _firings: u32) {}

    /// No firing of this block fits yet. It waits, at least until its next turn begins.
    fn waits(&self, _block: BlockId, _need: Need) {}
}

/// The gate that does nothing.
#[derive(Clone, Copy, Debug)]
pub struct Open;

impl Gate for Open {
    fn pass(&self, _block: BlockId, _firing: u64) {}
}

/// The gate of a run that may have none.
impl<G: Gate + Drop> Gate for Option<Arc<G, Global>> {
    fn pass(&self, block: BlockId, firing: u64) {
        if let Some(gate) = self {
            gate.pass(block, firing);
        }
    }

    fn missed(&self) {
        if let Some(gate) = self {
            gate.missed();
        }
    }

    fn begins(&self, block: BlockId) {
        if let Some(gate) = self {
            gate.begins(block);
        }
    }

    fn worked(&self, block: BlockId, firings: u32) {
        if let Some(gate) = self {
            gate.worked(block, firings);
        }
    }

    fn waits(&self, block: BlockId, need: Need) {
        if let Some(gate) = self {
            gate.waits(block, need);
        }
    }
}
