//! The threads of a run between files: those that read its inputs, and those that write its outputs.

use crate::devices::{Chain, Target};
use crate::ends::NamedEnd;
use crate::stops::Stream;
use crate::stretch::Stretch;
use crate::waits::Waits;
use crate::words::Call;
use flow_runs::serve::Action;
use flowgraph::BlockId;
use pipeline::{PipelineFault, Readiness};
use reader_threads::{ApartReader, ReaderThreads};
use request_box::Bell;
use std::alloc::{AllocError, Global};
use std::fs;
use std::sync::{Arc, Wait};
use std::thread::Threads;
use std::time::{Clock, Duration};
use writer_threads::{ApartWriter, Lane, WriterThreads};

// How many seconds a run waits before it says for whom.
const PATIENCE: u64 = 1;

/// Which ends of a run have threads, of those that may wait.
#[derive(Clone, Copy, Debug, PartialEq, Eq)]
pub struct Apart {
    pub inputs: bool,
    pub outputs: bool,
}

impl Apart {
    /// If a run has several outputs, its outputs have threads, so that none holds up the others; in a live run also a
    /// single one, so that it holds up no answer. So have the inputs of such runs, and of several sources. A run in
    /// pieces writes one output after the other.
    pub fn of(rt: &HostRuntime, call: &Call<'_>, is_in_pieces: bool) -> Apart {
        match call.action {
            Action::Live => Apart {
                inputs: true,
                outputs: true,
            },
            Action::Run(_) => {
                let outputs = !is_in_pieces && !is_slice(call.stretch) && are_several(rt, call);
                Apart {
                    inputs: outputs || call.ends.feed_several(),
                    outputs,
                }
            }
            _ => Apart {
                inputs: false,
                outputs: false,
            },
        }
    }
}

fn is_slice(stretch: Stretch) -> bool {
    matches!(stretch, Stretch::Slice(_))
}

// Whether a run has several outputs, of which one may be full.
fn are_several(rt: &HostRuntime, call: &Call<'_>) -> bool {
    let (outputs, tags) = (&call.ends.outputs, &call.ends.tags);
    1 < outputs.len().saturating_add(tags.len())
        && (outputs.iter().any(|end| may_be_full(rt, end))
            || tags.iter().any(|end| may_be_full(rt, end)))
}

/// Whether a write to an output may wait, as to a pipe or a terminal: it is not known to be a regular file.
pub fn may_be_full(rt: &HostRuntime, end: &NamedEnd<'_>) -> bool {
    let path = if end.is_standard() {
        "/dev/stdout"
    } else {
        end.path
    };
    match fs::metadata(rt, path) {
        Ok(found) => !found.is_file() && path != "/dev/null",
        // (a file that is not there yet is made, as a regular one)
        Err(_) => end.is_standard(),
    }
}

/// The threads, and which of them have something, or take something.
#[derive(Drop)]
pub struct Pipes<R: Drop> {
    rt: R,
    apart: Apart,
    bell: Arc<Bell, Global>,
    // How often the bell had been rung by the end of the last wait.
    heard: u64,
    pub readers: ReaderThreads<Chain, R>,
    writers: WriterThreads<Target, R>,
    waits: Waits,
}

impl<R: Threads + Wait + Copy + Send + 'static> Pipes<R> {
    /// No threads yet. It fails only if the allocator refuses.
    pub fn new(
        threads: R,
        rt: &HostRuntime,
        call: &Call<'_>,
        run: &Stream<R>,
        apart: Apart,
    ) -> Result<Pipes<R>, AllocError> {
        let graph = run.plant.graph();
        let readers = ReaderThreads::new(threads, rt.alloc(), graph.len())?;
        let bell = readers.bell()?;
        let writers = WriterThreads::new(threads, rt.alloc(), graph.len(), readers.bell()?)?;
        Ok(Pipes {
            rt: threads,
            apart,
            bell,
            heard: 0,
            readers,
            writers,
            waits: Waits::new(rt, call, graph)?,
        })
    }

    /// The reader of a source. A thread reads if it may be silent.
    pub fn reader(
        &mut self,
        alloc: Global,
        source: BlockId,
        chain: Chain,
    ) -> Result<ApartReader<Chain, R>, AllocError> {
        if self.apart.inputs && chain.may_be_silent() {
            self.readers.start(alloc, source, chain)
        } else {
            Ok(ApartReader::Here(chain))
        }
    }

    /// The writer of the items or the tags of a sink, which may be full. A thread writes.
    pub fn writer(
        &mut self,
        alloc: Global,
        sink: BlockId,
        lane: Lane,
        target: Target,
    ) -> Result<ApartWriter<Target, R>, AllocError> {
        if self.apart.outputs {
            self.writers.start(alloc, sink, lane, target)
        } else {
            Ok(ApartWriter::Here(target))
        }
    }
}

impl<R: Wait + Copy + Send + Threads + 'static> Pipes<R> {
    /// Waits until all is written that was given, and ends the threads. It returns a failure that no write has told.
    pub fn finish(self) -> Result<(), PipelineFault> {
        let Pipes {
            readers,
            writers,
            ..
        } = self;
        readers.finish();
        writers.finish()
    }
}

impl<R: Wait + Clock + Drop> Readiness for Pipes<R> {
    fn is_ready(&mut self, source: BlockId) -> bool {
        let is_ready = self.readers.is_ready(source);
        if !is_ready {
            self.waits.for_input(source);
        }
        is_ready
    }

    fn takes(&mut self, sink: BlockId) -> bool {
        let takes = self.writers.takes(sink);
        if !takes {
            self.waits.for_output(sink);
        }
        takes
    }

    fn ends(&mut self, sink: BlockId) {
        self.writers.close(sink);
    }

    fn wait(&mut self) {
        let patience = Duration::from_secs(PATIENCE);
        let mut heard = self.bell.wait_for(&self.rt, self.heard, patience);
        if heard == self.heard {
            self.waits.tell(&self.readers);
            heard = self.bell.wait(&self.rt, self.heard);
        }
        self.heard = heard;
        self.waits.forget();
    }
}
