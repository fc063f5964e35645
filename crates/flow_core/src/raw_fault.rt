//! Why a run with raw items stops, and how it says so.

ghost use Rattle.std.specs.Prelude.{◌≡◌, ◌++◌, codes};
ghost use Rattle.std.specs.Fmt.{decimal};
ghost use Rattle.flow_core.specs.declared.fault.Fault.TheVariants.{Script};
ghost use Rattle.flow_core.specs.declared.raw_fault.RawFault.TheVariants.{Whole};
ghost use Rattle.flow_core.specs.declared.script.ScriptFault.TheVariants.{Memory};
ghost use Rattle.refusal_codes.specs.Texts.{head, refusal_text};
ghost use Rattle.flow_core.specs.RawFaults.{end_row, place_word, place_number, place_text};

use crate::fault::Fault;
use crate::script::ScriptFault;
use plant::PlantFault;
use refusal_codes::text::{EMPTY, SPACE};
use refusal_codes::{Refusal, RefusalText, TextPart};
use std::alloc::AllocError;
use std::fmt;
use thiserror::Error;

/// What is wrong at an end of a run. An end is an input that feeds a source, or an output that takes what a sink holds.
#[derive(Clone, Copy, Debug, PartialEq, Eq)]
pub enum EndFault {
    /// No block of the graph has the name.
    NoSuchBlock,
    /// The block is no source.
    NotSource,
    /// The block keeps no items.
    NotSink,
    /// The source's tape was closed before.
    Closed,
    /// The tape would be longer than 2^32 items, or than a streaming run takes.
    TapeFull,
    /// The input could not be opened, or a read failed.
    Read,
    /// The output could not be made, or a write failed.
    Write,
    /// The input ends within an item.
    CutItem,
    /// The line of this number, counted from 1, is no mark.
    BadLine(u64),
    /// The mark in the line of this number lies on an item before that of the line above, or on none of the input's
    /// items.
    TagPlace(u64),
}

/// Which end of a run, each counted from 0.
#[derive(Clone, Copy, Debug, PartialEq, Eq)]
pub enum EndPlace {
    /// An input of raw items.
    Input(usize),
    /// An output of raw items.
    Output(usize),
    /// An output of tags.
    Tags(usize),
    /// An input of marks.
    Marks(usize),
}

/// Why a run with raw items stopped. Its text is the number of the refusal, its name, and what the name does not say.
#[derive(Debug, Drop, Error)]
pub enum RawFault {
    /// No end is to blame: the graph file is refused, the run or the report failed, or memory ran out.
    Whole(Fault),
    /// An end of the run is refused, or its device failed.
    End(EndPlace, EndFault),
}

impl Refusal for EndFault {
    ghost row = { end_row };

    fn row(&self) -> (u32, &'static str) {
        match self {
            EndFault::NoSuchBlock => PlantFault::NoSuchBlock.row(),
            EndFault::NotSource => PlantFault::NotSource.row(),
            EndFault::NotSink => PlantFault::NotSink.row(),
            EndFault::Closed => PlantFault::Closed.row(),
            EndFault::TapeFull => PlantFault::TapeFull.row(),
            EndFault::Read => (51, "Read"),
            EndFault::Write => (52, "Write"),
            EndFault::CutItem => (53, "CutItem"),
            EndFault::BadLine(_) => (50, "BadLine"),
            EndFault::TagPlace(_) => PlantFault::TagPlace.row(),
        }
    }
}

impl EndPlace {
    // The word for ends of this sort.
    fn word(self) -> &'static str
        ensures { result.now ≡ place_word self }
    {
        match self {
            EndPlace::Input(_) => " input ",
            EndPlace::Output(_) => " output ",
            EndPlace::Tags(_) => " tags ",
            EndPlace::Marks(_) => " marks ",
        }
    }

    fn number(self) -> usize
        ensures { result ≡ place_number self }
    {
        match self {
            EndPlace::Input(number)
            | EndPlace::Output(number)
            | EndPlace::Tags(number)
            | EndPlace::Marks(number) => number,
        }
    }
}

impl Refusal for RawFault {
    ghost use Rattle.flow_core.specs.RawFaults.{raw_row};

    ghost row = { raw_row };

    fn row(&self) -> (u32, &'static str) {
        match self {
            RawFault::Whole(fault) => fault.row(),
            RawFault::End(_, fault) => fault.row(),
        }
    }
}

impl RawFault {
    ghost use Rattle.flow_core.specs.RawFaults.{raw_fault_text, raw_status_of};

    /// The exit status for the fault: 4 for memory and devices, 1 for every other refusal.
    pub fn status(&self) -> u8
        ensures { result ≡ raw_status_of self.now }
    {
        match self {
            RawFault::Whole(fault) => fault.status(),
            RawFault::End(_, EndFault::Read | EndFault::Write) => 4,
            RawFault::End(_, _) => 1,
        }
    }

    /// The text of the fault in parts. It takes no memory.
    pub fn refusal_text(&self) -> RefusalText<'_>
        ensures { refusal_text result ≡ raw_fault_text self.now }
    {
        match self {
            RawFault::Whole(fault) => fault.refusal_text(),
            RawFault::End(place, fault) => match fault {
                EndFault::BadLine(line) | EndFault::TagPlace(line) => {
                    placed_line(fault.row(), *place, *line)
                }
                _ => placed(fault.row(), *place),
            },
        }
    }
}

// The number and the name of a fault, its place, and a line number there.
fn placed_line(row: (u32, &'static str), place: EndPlace, line: u64) -> RefusalText<'static>
    ensures { refusal_text result ≡ head (row.entry.0, row.entry.1.now) ++ place_text place ++ codes " "
        ++ decimal line }
{
    let number = TextPart::Number(place.number() as u64);
    let word = TextPart::Text(place.word());
    RefusalText::headed(
        row,
        [word, number, SPACE, TextPart::Number(line), EMPTY, EMPTY],
    )
}

// The number and the name of a fault, and its place.
fn placed(row: (u32, &'static str), place: EndPlace) -> RefusalText<'static>
    ensures { refusal_text result ≡ head (row.entry.0, row.entry.1.now) ++ place_text place }
{
    let number = TextPart::Number(place.number() as u64);
    RefusalText::of(row, [TextPart::Text(place.word()), number, EMPTY])
}

impl From<Fault> for RawFault {
    ghost from_gives = { λ fault e. e ≡ Whole fault };

    fn from(fault: Fault) -> RawFault {
        RawFault::Whole(fault)
    }
}

impl From<AllocError> for RawFault {
    ghost from_gives = { λ _ e. e ≡ Whole (Script Memory) };

    fn from(_refusal: AllocError) -> RawFault {
        RawFault::Whole(Fault::Script(ScriptFault::Memory))
    }
}

impl fmt::Display for RawFault {
    ghost use Rattle.std.specs.Prelude.{Some};
    ghost use Rattle.flow_core.specs.RawFaults.{raw_fault_text};

    ghost output = { λ fault. Some (raw_fault_text fault) };

    fn fmt<W: fmt::Write>(&self, f: &mut fmt::Formatter<W>) -> fmt::Result {
        write!(f, "{}", self.refusal_text())
    }
}
