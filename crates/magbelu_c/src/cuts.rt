//! How tapes and streams are cut into slices of time, as rows of tables.

ghost use Rattle.std.specs.Prelude.{◌≡◌, IfOk, map};
ghost use Rattle.magbelu_c.specs.Cuts.{part_row, sink_row, source_row};

use slices::{Part, Sink, Source};
use std::alloc::{AllocError, Global};

/// How the tape of a source is cut.
#[repr(C)]
#[derive(Clone, Copy, Debug, PartialEq, Eq)]
pub struct CutSource {
    /// The number of the source, which is its place in the graph file.
    pub block: u32,
    /// How many items it gives in an iteration.
    pub period: u64,
    /// How many items before its own a slice reads.
    pub overlap: u64,
}

/// How the items of a sink are put together.
#[repr(C)]
#[derive(Clone, Copy, Debug, PartialEq, Eq)]
pub struct CutSink {
    /// The number of the sink.
    pub block: u32,
    /// How many items it takes in an iteration.
    pub period: u64,
    /// How many items a slice drops, unless it begins the run.
    pub drop: u64,
}

/// What a slice gives a sink.
#[repr(C)]
#[derive(Clone, Copy, Debug, PartialEq, Eq)]
pub struct CutPart {
    /// The number of the sink.
    pub block: u32,
    /// How many of its items are dropped.
    pub drop: u64,
    /// The place of the next item in the whole stream.
    pub stands: u64,
}

/// A row for each source.
pub(crate) fn source_rows(alloc: Global, sources: &[Source]) -> Result<Vec<CutSource>, AllocError>
    ensures { IfOk result (λ rows. rows.items ≡ map source_row sources.now) }
{
    let mut rows = Vec::with_capacity(alloc, sources.len())?;
    for source in sources {
        rows.push(CutSource {
            block: source.block.0,
            period: source.period,
            overlap: source.overlap,
        })?;
    }
    Ok(rows)
}

/// A row for each sink.
pub(crate) fn sink_rows(alloc: Global, sinks: &[Sink]) -> Result<Vec<CutSink>, AllocError>
    ensures { IfOk result (λ rows. rows.items ≡ map sink_row sinks.now) }
{
    let mut rows = Vec::with_capacity(alloc, sinks.len())?;
    for sink in sinks {
        rows.push(CutSink {
            block: sink.block.0,
            period: sink.period,
            drop: sink.drop,
        })?;
    }
    Ok(rows)
}

/// A row for each part of a slice.
pub(crate) fn part_rows(alloc: Global, parts: &[Part]) -> Result<Vec<CutPart>, AllocError>
    ensures { IfOk result (λ rows. rows.items ≡ map part_row parts.now) }
{
    let mut rows = Vec::with_capacity(alloc, parts.len())?;
    for part in parts {
        rows.push(CutPart {
            block: part.block.0,
            drop: part.drop,
            stands: part.stands,
        })?;
    }
    Ok(rows)
}
