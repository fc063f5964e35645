//! Which readers have something, and which writers take something.

ghost use Rattle.std.specs.Prelude.{◌≡◌, true};

use flowgraph::BlockId;

/// Tells which readers of a [`Pipeline`](crate::Pipeline) have something, so that a silent one holds up only what needs
/// its items, and which writers take something, so that a full one holds up only what leads to it.
///
/// It promises nothing: whatever it answers, a pipeline reads only for a source that is to be fed next, and writes all
/// that its sinks take, in order. After a wrong `true` the pipeline waits in the read or the write. After a wrong
/// `false` it reads for another source first, or lets the sink rest, or waits here.
pub trait Readiness {
    /// Whether a read for this source would not wait: there are bytes, or the end, or a failure.
    fn is_ready(&mut self, source: BlockId) -> bool;

    /// Whether the writers of this sink take what they are given without waiting, or have failed. A pipeline writes to
    /// each at most once, and flushes it, before it asks again.
    fn takes(&mut self, sink: BlockId) -> bool;

    /// Tells that this sink takes no more, and that its writers were given all: they may be closed. A pipeline may tell
    /// it more than once.
    fn ends(&mut self, _sink: BlockId) {}

    /// Waits until something may have changed since the last wait: a source that was not ready by `is_ready` may be, or
    /// the writers of a sink may take that did not by `takes`, or a request came that it is told of. It may return
    /// early; the pipeline then asks again.
    fn wait(&mut self);
}

/// Takes each reader to have something, and each writer to take all, as files and bytes in memory do.
#[derive(Debug, Drop)]
pub struct AllReady;

impl Readiness for AllReady {
    fn is_ready(&mut self, _source: BlockId) -> bool
        ensures { result ≡ true }
    {
        true
    }

    fn takes(&mut self, _sink: BlockId) -> bool
        ensures { result ≡ true }
    {
        true
    }

    fn wait(&mut self) {}
}
