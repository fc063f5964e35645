//! Tells a gate of a run on one thread.

use flowgraph::BlockId;
use plant::{Headway, Step, Watch};
use scheduling::Gate;
use std::alloc::Global;
use std::sync::Arc;
use std::time::Duration;

/// A watch that tells a gate, if there is one, of the steps of `Plant::settle_watched`, as runs in threads tell a gate
/// of turns.
#[derive(Drop)]
pub struct GatedWatch<'a, G: Drop, W> {
    gate: Option<Arc<G, Global>>,
    watch: &'a mut W,
}

impl<'a, G: Gate + Drop, W: Watch> GatedWatch<'a, G, W> {
    /// This watch with this gate.
    pub fn new(gate: Option<Arc<G, Global>>, watch: &'a mut W) -> GatedWatch<'a, G, W> {
        GatedWatch { gate, watch }
    }
}

impl<G: Gate + Drop, W: Watch> Watch for GatedWatch<'_, G, W> {
    fn pause(&self) -> Option<Duration> {
        self.watch.pause()
    }

    fn show(&mut self, headway: Headway) {
        self.watch.show(headway);
    }

    fn end(&mut self) {
        self.watch.end();
    }

    fn begins(&mut self, block: BlockId) {
        if let Some(gate) = &self.gate {
            gate.begins(block);
        }
        self.watch.begins(block);
    }

    fn stepped(&mut self, block: BlockId, step: Step) {
        if let Some(gate) = &self.gate {
            match step {
                Step::Did(firings) => gate.worked(block, firings),
                Step::Waiting(need) => gate.waits(block, need),
                Step::Done | Step::Busy => {}
            }
        }
        self.watch.stepped(block, step);
    }
}
