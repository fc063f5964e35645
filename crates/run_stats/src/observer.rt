//! Observes a run.

use crate::meter::Meter;
use crate::tracer::Tracer;
use firing_rules::Need;
use flowgraph::BlockId;
use scheduling::Gate;
use std::time::{Clock, CpuClock};

/// The gate that is a meter, a tracer, or both.
#[derive(Drop)]
pub struct Observer<R> {
    pub meter: Option<Meter<R>>,
    pub tracer: Option<Tracer<R>>,
}

impl<R: Clock + CpuClock + Drop> Gate for Observer<R> {
    fn pass(&self, _block: BlockId, _firing: u64) {}

    fn begins(&self, block: BlockId) {
        if let Some(meter) = &self.meter {
            meter.begins(block);
        }
        if let Some(tracer) = &self.tracer {
            tracer.begins(block);
        }
    }

    fn worked(&self, block: BlockId, firings: u32) {
        if let Some(meter) = &self.meter {
            meter.worked(block, firings);
        }
        if let Some(tracer) = &self.tracer {
            tracer.worked(block, firings);
        }
    }

    fn waits(&self, block: BlockId, need: Need) {
        if let Some(meter) = &self.meter {
            meter.waits(block, need);
        }
        if let Some(tracer) = &self.tracer {
            tracer.waits(block, need);
        }
    }
}
