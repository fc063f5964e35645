//! The refusals of a plant.

ghost use Rattle.std.specs.Prelude.{◌≡◌, Some};
ghost use Rattle.plant_faults.specs.Fault.{row_of, text_of};
ghost use Rattle.plant_faults.specs.declared.fault.PlantFault.TheVariants.{Memory};

use refusal_codes::Refusal;
use std::alloc::AllocError;
use std::error::Error;
use std::fmt;

/// Why a call of a plant was refused. The plant is as before.
#[derive(Clone, Copy, Debug, PartialEq, Eq)]
pub enum PlantFault {
    /// No block of the graph has this number.
    NoSuchBlock,
    /// The block is no source.
    NotSource,
    /// The block is no sink that keeps its items.
    NotSink,
    /// The source's tape was closed before.
    Closed,
    /// The items do not fit the source's type: they are of another type, or a number lies outside its range.
    ItemRange,
    /// A mark lies on none of the items that it was fed with.
    TagPlace,
    /// The tape would be longer than the source takes: 2^32 items, or in a plant that streams 2^61 divided by the
    /// graph's greatest gain.
    TapeFull,
    /// The setting would begin before the floor: the first item that is still open.
    Late { floor: u64 },
    /// The block has no setting.
    NoSetting,
    /// The block's setting is of another sort, range or length.
    WrongSetting,
    /// The read begins behind the items that the sink holds.
    BeyondEnd,
    /// The block has no used output of this number.
    NoSuchPort,
    /// Out of memory.
    Memory,
}

impl Refusal for PlantFault {
    ghost row = { row_of };

    fn row(&self) -> (u32, &'static str) {
        match self {
            PlantFault::NoSuchBlock => (20, "NoSuchBlock"),
            PlantFault::NotSource => (21, "NotSource"),
            PlantFault::NotSink => (22, "NotSink"),
            PlantFault::Closed => (23, "Closed"),
            PlantFault::ItemRange => (24, "ItemRange"),
            PlantFault::TagPlace => (25, "TagPlace"),
            PlantFault::TapeFull => (26, "TapeFull"),
            PlantFault::Late { .. } => (27, "Late"),
            PlantFault::NoSetting => (28, "NoSetting"),
            PlantFault::WrongSetting => (29, "WrongSetting"),
            PlantFault::BeyondEnd => (31, "BeyondEnd"),
            PlantFault::Memory => (32, "Memory"),
            PlantFault::NoSuchPort => (33, "NoSuchPort"),
        }
    }
}

impl fmt::Display for PlantFault {
    ghost output = { λ fault. Some (text_of fault) };

    fn fmt<W: fmt::Write>(&self, f: &mut fmt::Formatter<W>) -> fmt::Result {
        match self {
            PlantFault::NoSuchBlock => f.write_str("no such block"),
            PlantFault::NotSource => f.write_str("the block is no source"),
            PlantFault::NotSink => f.write_str("the block is no sink"),
            PlantFault::Closed => f.write_str("the source is closed"),
            PlantFault::ItemRange => f.write_str("the items do not fit the source's type"),
            PlantFault::TagPlace => f.write_str("a mark lies outside its items"),
            PlantFault::TapeFull => f.write_str("the tape is full"),
            PlantFault::Late { floor } => write!(f, "set below item {floor}"),
            PlantFault::NoSetting => f.write_str("the block has no setting"),
            PlantFault::WrongSetting => f.write_str("the block takes no such setting"),
            PlantFault::BeyondEnd => f.write_str("the sink does not hold so many items"),
            PlantFault::NoSuchPort => f.write_str("the block has no such output"),
            PlantFault::Memory => f.write_str("out of memory"),
        }
    }
}

impl Error for PlantFault {}

impl From<AllocError> for PlantFault {
    ghost from_gives = { λ _ e. e ≡ Memory };

    fn from(_refusal: AllocError) -> PlantFault {
        PlantFault::Memory
    }
}
