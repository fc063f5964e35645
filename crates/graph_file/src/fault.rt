//! Why a graph file is refused.
ghost use Rattle.std.specs.Prelude.{◌≡◌, ◌↔◌, ◌⊎◌, None, Some};
ghost use Rattle.graph_file.specs.declared.fault.FileFault.TheVariants.{Memory};
ghost use Rattle.graph_file.specs.Refusals.{told, told_table, of_graph, negative_port, short, block_name, row_of};
ghost use Rattle.refusal_codes.specs.Texts.{refusal_text};
ghost use Rattle.graph_file.specs.Texts as texts;

use crate::texts::{feed_text, graph_text, negative_text, table_text};
use arrayvec::ArrayString;
use flowgraph::{GraphFault, Side};
use items::is_name;
use kind_schema::KeyFault;
use plant_faults::PlantFault;
use refusal_codes::{Refusal, RefusalText};
use std::alloc::{AllocError, AllocFailed};
use std::fmt;
use thiserror::Error;

/// How many bytes a block's name has at most.
const MOST_NAME: usize = 32;

/// A table of a graph file: the document itself, or one of its blocks, connections or feeds, counted from 0.
#[derive(Clone, Copy, Debug, PartialEq, Eq)]
pub enum FilePlace {
    /// The document.
    Top,
    /// An entry of `block`.
    Block(usize),
    /// An entry of `connect`.
    Connect(usize),
    /// An entry of `feed`.
    Feed(usize),
}

/// Why a graph file is refused. Its text has the number of the refusal, its name, and what the name does not say.
#[derive(Debug, Drop, Error)]
pub enum FileFault {
    /// The text is not TOML in UTF-8.
    Syntax,
    /// A key of a table is unknown, missing, of another type, or has a bad value; or the kind is unknown.
    Table {
        place: FilePlace,
        fault: KeyFault,
    },
    /// A block, a connection or the whole graph is refused. `name` is that of the block that the refusal names.
    Graph {
        place: FilePlace,
        fault: GraphFault,
        name: ArrayString<32>,
    },
    /// A port of a connection is negative. `name` is that of the block at this end, or empty if the text there cannot
    /// be a block's name.
    NegativePort {
        place: FilePlace,
        name: ArrayString<32>,
        side: Side,
        port: i64,
    },
    /// A feed, counted from 0, is refused as its source would be fed.
    Feed {
        feed: usize,
        fault: PlantFault,
    },
    /// Out of memory.
    Memory,
}

impl Refusal for FileFault {
    ghost row = { row_of };

    fn row(&self) -> (u32, &'static str) {
        match self {
            FileFault::Syntax => (40, "Syntax"),
            FileFault::Table { fault, .. } => fault.row(),
            FileFault::Graph { fault, .. } => fault.row(),
            FileFault::NegativePort { .. } => (3, "PortRange"),
            FileFault::Feed { fault, .. } => fault.row(),
            FileFault::Memory => (32, "Memory"),
        }
    }
}

impl FileFault {
    /// The text of the fault in parts. It takes no memory.
    pub fn refusal_text(&self) -> RefusalText<'_>
        ensures { refusal_text result ≡ texts.fault_text self.now }
    {
        let row = self.row();
        match self {
            FileFault::Syntax | FileFault::Memory => RefusalText::alone(row),
            FileFault::Table { place, fault } => table_text(*place, *fault),
            FileFault::Graph { place, fault, name } => graph_text(*place, *fault, name.as_str()),
            FileFault::NegativePort {
                place,
                name,
                side,
                port,
            } => negative_text(row, *place, name.as_str(), *side, *port),
            FileFault::Feed { feed, fault } => feed_text(*feed, *fault),
        }
    }
}

impl From<AllocError> for FileFault {
    ghost from_gives = { λ _ e. e ≡ Memory };

    fn from(_refusal: AllocError) -> FileFault {
        FileFault::Memory
    }
}

impl<T: Drop> From<AllocFailed<T>> for FileFault {
    ghost from_gives = { λ _ e. e ≡ Memory };

    fn from(_refusal: AllocFailed<T>) -> FileFault {
        FileFault::Memory
    }
}

/// How a fault of a table is reported.
pub(crate) fn table_fault(place: FilePlace, fault: KeyFault) -> FileFault
    ensures told { told result ≡ told_table place fault }
    ensures memory { (result ≡ FileFault.Memory) ↔ (fault ≡ KeyFault.Memory) }
{
    match fault {
        KeyFault::Memory => FileFault::Memory,
        fault => FileFault::Table { place, fault },
    }
}

/// How a fault of the graph is reported that names a block of this name.
pub(crate) fn graph_fault(place: FilePlace, fault: GraphFault, name: &str) -> FileFault
    ensures memory { (result ≡ FileFault.Memory) ↔ (fault ≡ GraphFault.Memory) }
    ensures named { (told result ≡ None) ⊎ (told result ≡ Some (of_graph place fault (short name.now))) }
{
    if let GraphFault::Memory = fault {
        return FileFault::Memory;
    }
    let name = match ArrayString::from(name) {
        Ok(name) => name,
        Err(_) => ArrayString::new(),
    };
    FileFault::Graph { place, fault, name }
}

/// The refusal of a negative port at an end of a connection, which has this text.
pub(crate) fn port_fault(place: FilePlace, end: &str, side: Side, port: i64) -> FileFault
    ensures { told result ≡ Some (negative_port place (block_name end.now) side port) }
{
    let name = block_name(end);
    FileFault::NegativePort {
        place,
        name,
        side,
        port,
    }
}

// The text if it can be a block's name, else an empty one.
fn block_name(text: &str) -> ArrayString<32>
    ensures { result.bytes ≡ block_name text.now }
{
    if !is_name(text.as_bytes(), MOST_NAME) {
        return ArrayString::new();
    }
    match ArrayString::from(text) {
        Ok(name) => name,
        Err(_) => ArrayString::new(),
    }
}

impl fmt::Display for FileFault {
    ghost output = { λ fault. Some (texts.fault_text fault) };

    fn fmt<W: fmt::Write>(&self, f: &mut fmt::Formatter<W>) -> fmt::Result {
        let text = self.refusal_text();
        write!(f, "{text}")
    }
}
