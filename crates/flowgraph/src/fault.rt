//! Why a graph is refused.
ghost use Rattle.std.specs.Prelude.{◌≡◌, Some};
ghost use Rattle.flowgraph.specs.Fault.{row_of, side_text, limit_text, option_text, text_of};
ghost use Rattle.flowgraph.specs.declared.fault.GraphFault.TheVariants.{Memory};

use crate::parts::BlockId;
use refusal_codes::Refusal;
use std::alloc::AllocError;
use std::error::Error;
use std::fmt;

/// The sides of a block.
#[derive(Clone, Copy, Debug, PartialEq, Eq)]
pub enum Side {
    /// The inputs.
    In,
    /// The outputs.
    Out,
}

/// What may be wrong with a block that is added. It prints as its name in a graph.
#[derive(Clone, Copy, Debug, PartialEq, Eq)]
pub enum BlockOption {
    /// The name is not 1 to 32 letters, digits, `_`, `.` and `-`.
    Name,
    /// The multiple lies outside 1 to 64, or is not 1 for a source, a sink, or a block with a limit or without a rate.
    Multiple,
    /// The capacity lies outside 1 to 65,536.
    Capacity,
}

/// What a graph has too many of.
#[derive(Clone, Copy, Debug, PartialEq, Eq)]
pub enum Limit {
    /// More than 256.
    Blocks,
    /// More than 1,024.
    Connections,
}

/// Why a graph is refused, or a block or a connection of it.
#[derive(Clone, Copy, Debug, PartialEq, Eq)]
pub enum GraphFault {
    /// Another block has this name.
    DuplicateName,
    /// An end of the connection is no block of the graph.
    UnknownBlock,
    /// The block may have no port of this number on this side.
    PortRange {
        block: BlockId,
        side: Side,
        port: usize,
    },
    /// The input has a connection already.
    InputTaken {
        block: BlockId,
        port: usize,
    },
    /// The port is unused, and a higher one of its side is used.
    PortGap {
        block: BlockId,
        side: Side,
        port: usize,
    },
    /// The output gives items of another type than the input takes. The fault names the input.
    TypeMismatch {
        block: BlockId,
        port: usize,
    },
    /// The block reaches itself.
    Loop {
        block: BlockId,
    },
    /// On one side the block has fewer connected ports than it asks for.
    TooFewPorts {
        block: BlockId,
    },
    /// The graph would have too many blocks or connections.
    TooLarge(Limit),
    /// The block may not have this name, this multiple or this capacity.
    BadParameter(BlockOption),
    /// Tags are to go from each input to the output of its number, and there are not as many used inputs as outputs.
    OneToOne {
        block: BlockId,
    },
    /// The product of gains along a path that ends at the block is above 16,777,216.
    Gain {
        block: BlockId,
    },
    /// Out of memory.
    Memory,
}

impl Refusal for GraphFault {
    ghost row = { row_of };

    fn row(&self) -> (u32, &'static str) {
        match self {
            GraphFault::DuplicateName => (1, "DuplicateName"),
            GraphFault::UnknownBlock => (2, "UnknownBlock"),
            GraphFault::PortRange { .. } => (3, "PortRange"),
            GraphFault::InputTaken { .. } => (4, "InputTaken"),
            GraphFault::PortGap { .. } => (5, "PortGap"),
            GraphFault::TypeMismatch { .. } => (6, "TypeMismatch"),
            GraphFault::Loop { .. } => (7, "Loop"),
            GraphFault::TooFewPorts { .. } => (8, "TooFewPorts"),
            GraphFault::TooLarge(_) => (9, "TooLarge"),
            GraphFault::BadParameter(_) => (10, "BadParameter"),
            GraphFault::OneToOne { .. } => (11, "OneToOne"),
            GraphFault::Gain { .. } => (12, "Gain"),
            GraphFault::Memory => (32, "Memory"),
        }
    }
}

impl Side {
    /// The word for the side.
    pub fn text(&self) -> &'static str
        ensures { result.now ≡ side_text self.now }
    {
        match self {
            Side::In => "in",
            Side::Out => "out",
        }
    }
}

impl BlockOption {
    /// The name that a graph gives it.
    pub fn text(&self) -> &'static str
        ensures { result.now ≡ option_text self.now }
    {
        match self {
            BlockOption::Name => "name",
            BlockOption::Multiple => "multiple",
            BlockOption::Capacity => "capacity",
        }
    }
}

impl Limit {
    /// The word for what there are too many of.
    pub fn text(&self) -> &'static str
        ensures { result.now ≡ limit_text self.now }
    {
        match self {
            Limit::Blocks => "blocks",
            Limit::Connections => "connections",
        }
    }
}

impl fmt::Display for Side {
    ghost output = { λ side. Some (side_text side) };

    fn fmt<W: fmt::Write>(&self, f: &mut fmt::Formatter<W>) -> fmt::Result {
        f.write_str(self.text())
    }
}

impl fmt::Display for BlockOption {
    ghost output = { λ option. Some (option_text option) };

    fn fmt<W: fmt::Write>(&self, f: &mut fmt::Formatter<W>) -> fmt::Result {
        f.write_str(self.text())
    }
}

impl fmt::Display for Limit {
    ghost output = { λ limit. Some (limit_text limit) };

    fn fmt<W: fmt::Write>(&self, f: &mut fmt::Formatter<W>) -> fmt::Result {
        f.write_str(self.text())
    }
}

impl fmt::Display for GraphFault {
    ghost output = { λ fault. Some (text_of fault) };

    fn fmt<W: fmt::Write>(&self, f: &mut fmt::Formatter<W>) -> fmt::Result {
        f.write_str(match self {
            GraphFault::DuplicateName => "duplicate name",
            GraphFault::UnknownBlock => "unknown block",
            GraphFault::PortRange { .. } => "port out of range",
            GraphFault::InputTaken { .. } => "input taken",
            GraphFault::PortGap { .. } => "port gap",
            GraphFault::TypeMismatch { .. } => "type mismatch",
            GraphFault::Loop { .. } => "loop",
            GraphFault::TooFewPorts { .. } => "too few ports",
            GraphFault::TooLarge(_) => "too large",
            GraphFault::BadParameter(_) => "bad parameter",
            GraphFault::OneToOne { .. } => "not one to one",
            GraphFault::Gain { .. } => "gain too high",
            GraphFault::Memory => "out of memory",
        })
    }
}

impl Error for GraphFault {}

impl From<AllocError> for GraphFault {
    ghost from_gives = { λ _ e. e ≡ Memory };

    fn from(_refusal: AllocError) -> GraphFault {
        GraphFault::Memory
    }
}
