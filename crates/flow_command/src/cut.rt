//! A part of a run: what it reads of each source, and what it writes of each sink.

use crate::devices::Extent;
use crate::held::Held;
use flowgraph::BlockId;
use std::alloc::Global;

/// What a run reads of each source, and writes of each sink, by block.
#[derive(Drop)]
pub struct Cut {
    pub extents: Vec<Extent>,
    pub written: Vec<Written>,
    /// How many iterations of the tapes stand before what it reads.
    pub from: u64,
    /// The iteration from which on the items are the run's own. The run also reads the overlap before it.
    pub begins: u64,
    /// Whether the tapes go on after what is read of them.
    pub goes_on: bool,
}

/// What is written of a sink, in items.
#[derive(Clone, Copy, Debug, PartialEq, Eq)]
pub struct Written {
    /// The item of the whole stream that the sink takes first.
    pub origin: u64,
    /// How many of the first items are left out.
    pub left_out: u64,
    /// How many items are written after these, at most.
    pub most: u64,
    /// What the outputs already hold, if the run continues them. It writes after that.
    pub held: Option<Held>,
}

impl Written {
    /// All that the sink takes, into a new output.
    pub const WHOLE: Written = Written {
        origin: 0,
        left_out: 0,
        most: u64::MAX,
        held: None,
    };
}

impl Cut {
    /// The cut of a whole run.
    pub fn whole(alloc: Global) -> Cut {
        Cut {
            extents: Vec::new(alloc),
            written: Vec::new(alloc),
            from: 0,
            begins: 0,
            goes_on: false,
        }
    }

    /// Which bytes of its inputs a source reads.
    pub fn extent(&self, source: BlockId) -> Extent {
        match self.extents.get(source.0 as usize) {
            Some(extent) => *extent,
            None => Extent::WHOLE,
        }
    }

    /// What is written of a sink.
    pub fn written(&self, sink: BlockId) -> Written {
        match self.written.get(sink.0 as usize) {
            Some(written) => *written,
            None => Written::WHOLE,
        }
    }
}
