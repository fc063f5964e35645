//! Why a run is not cut into slices, and the message about it.

use crate::explaining::{REFUSED, explain_end};
use crate::refusing::{begins_none, buffered, shown_name};
use crate::stops::name_of;
use crate::words::Call;
use flow_core::start_fault::StartFault;
use flowgraph::{BlockId, Valid};
use kinds::Kind;
use std::alloc::AllocError;
use std::io::Write;

/// Why a run is not cut.
#[derive(Clone, Copy, Debug, PartialEq, Eq)]
pub enum Uncut {
    /// What the block gives rests on all that it was given.
    Remembers(BlockId),
    /// The rates have no balance, or slices would overlap too far.
    Rates,
    /// The graph file feeds the source.
    Fed(BlockId),
    /// An input of the source is no regular file.
    NoFile(BlockId),
    /// The output of the sink is no regular file, and the run is to continue it.
    NoFileOut(BlockId),
    /// The sink has no output.
    NoOutput(BlockId),
    /// Memory ran out.
    Memory,
}

impl From<AllocError> for Uncut {
    fn from(_refusal: AllocError) -> Uncut {
        Uncut::Memory
    }
}

impl Uncut {
    // The number and the name of the refusal.
    fn head(self) -> &'static str {
        match self {
            Uncut::Remembers(_) | Uncut::Rates | Uncut::Memory => "63 NoSlices",
            Uncut::Fed(_) | Uncut::NoFile(_) | Uncut::NoFileOut(_) | Uncut::NoOutput(_) =>
                "64 NoCut",
        }
    }

    // What is to blame.
    fn blames<'a>(self, graph: &'a Valid<Kind>) -> &'a str {
        match self {
            Uncut::Remembers(block)
            | Uncut::Fed(block)
            | Uncut::NoFile(block)
            | Uncut::NoFileOut(block)
            | Uncut::NoOutput(block) => text_of(graph, block),
            Uncut::Rates | Uncut::Memory => "rates",
        }
    }

    // Why that is.
    fn reason(self) -> &'static str {
        match self {
            Uncut::Remembers(_) => "what it gives rests on all that it was given",
            Uncut::Rates | Uncut::Memory => "they have no balance, or slices would overlap too far",
            Uncut::Fed(_) => "the graph file feeds it",
            Uncut::NoFile(_) => "an input of it is no regular file",
            Uncut::NoFileOut(_) => "its output is no regular file, which alone can be gone on with",
            Uncut::NoOutput(_) => "it has no output, and a slice is written to files",
        }
    }
}

/// The name of a block as text; empty if there is no such block.
pub fn text_of(graph: &Valid<Kind>, block: BlockId) -> &str {
    std::str::from_utf8(name_of(graph, block)).unwrap_or("")
}

/// Says why the run of a graph is not cut, and returns the exit status.
pub fn refuse_cut(rt: &HostRuntime, call: &Call<'_>, graph: &Valid<Kind>, uncut: Uncut) -> u8 {
    if uncut == Uncut::Memory {
        return begins_none(rt, StartFault::Memory);
    }
    let (head, name) = (uncut.head(), uncut.blames(graph));
    let file = shown_name(rt.alloc(), call.path);
    let mut errors = buffered(rt.alloc(), rt.stderr()).writer;
    let _ = write!(errors, "flow: refused {head} {name} in {file}\n");
    let _ = errors.flush();
    if call.explains {
        explain_end(rt, name, uncut.reason());
    }
    REFUSED
}
