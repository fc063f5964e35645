//! Measures and reports what a run spends its time on.

use crate::json::json_report;
use crate::meter::Meter;
use crate::observer::Observer;
use crate::text::text_report;
use crate::trace::write_trace;
use crate::tracer::Tracer;
use flowgraph::Valid;
use kinds::Kind;
use std::alloc::{AllocError, Global};
use std::io;
use std::io::Write;
use std::sync::Arc;
use std::time::Clock;

/// The form of a report of a run's times.
#[derive(Clone, Copy, Debug, PartialEq, Eq)]
pub enum Form {
    /// In columns.
    Text,
    /// In one object of JSON.
    Json,
}

/// What is looked at in a run.
#[derive(Clone, Copy, Debug, PartialEq, Eq)]
pub struct Looks {
    /// Whether its times are measured.
    pub at_times: bool,
    /// How many turns and waits its trace has room for, if it has one.
    pub at_events: Option<usize>,
}

/// An observer for a run of a graph, and the graph.
#[derive(Drop)]
pub struct Measured<R> {
    graph: Arc<Valid<Kind>, Global>,
    observer: Arc<Observer<R>, Global>,
}

impl<R: Clock + Copy> Measured<R> {
    /// An observer for a run of this graph. It fails only if memory runs out.
    pub fn new(
        alloc: Global,
        clock: R,
        looks: Looks,
        graph: Arc<Valid<Kind>, Global>,
    ) -> Result<Measured<R>, AllocError> {
        let meter = if looks.at_times {
            Some(Meter::new(alloc, clock, &*graph)?)
        } else {
            None
        };
        let tracer = match looks.at_events {
            Some(room) => Some(Tracer::new(alloc, clock, &*graph, room)?),
            None => None,
        };
        match Arc::new(alloc, Observer { meter, tracer }) {
            Ok(observer) => Ok(Measured { graph, observer }),
            Err(_) => Err(AllocError),
        }
    }

    /// The observer, for the run.
    pub fn observer(&self) -> Result<Arc<Observer<R>, Global>, AllocError> {
        match Arc::try_clone(&self.observer) {
            Ok(observer) => Ok(observer),
            Err(_) => Err(AllocError),
        }
    }

    /// The report of the measured times; empty if none were measured.
    pub fn report(&self, alloc: Global, form: Form) -> Result<Vec<u8>, AllocError> {
        let Some(meter) = &self.observer.meter else {
            return Ok(Vec::new(alloc));
        };
        let stats = meter.stats(alloc)?;
        match form {
            Form::Text => text_report(alloc, &*self.graph, &stats),
            Form::Json => json_report(alloc, &*self.graph, &stats),
        }
    }

    /// Writes the trace of the run, if it has one.
    pub fn trace<W: Write>(&self, out: &mut W) -> io::Result<()> {
        match &self.observer.tracer {
            Some(tracer) => write_trace(out, &*self.graph, tracer),
            None => Ok(()),
        }
    }

    /// How many turns and waits the trace had no room for, and how many there were.
    pub fn left_out(&self) -> (u64, u64) {
        match &self.observer.tracer {
            Some(tracer) => (tracer.left_out(), tracer.count()),
            None => (0, 0),
        }
    }
}
