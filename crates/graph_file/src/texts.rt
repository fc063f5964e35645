//! The texts of a graph file's faults, in parts, so a fault is reported without memory.
ghost use Rattle.std.specs.Prelude.{◌≡◌, ◌++◌, codes};
ghost use Rattle.std.specs.List.{flat_map};
ghost use Rattle.std.specs.Fmt.{decimal};
ghost use Rattle.flowgraph.specs.Fault as graphs;
ghost use Rattle.flowgraph.specs.Fault.{side_text};
ghost use Rattle.kind_schema.specs.Fault as tables;
ghost use Rattle.plant_faults.specs.Fault as feeds;
ghost use Rattle.graph_file.specs.Texts as texts;
ghost use Rattle.refusal_codes.specs.Texts.{head, part_text, refusal_text};

use crate::fault::FilePlace;
use flowgraph::{GraphFault, Side};
use kind_schema::KeyFault;
use plant_faults::PlantFault;
use refusal_codes::text::{EMPTY, SPACE};
use refusal_codes::{Refusal, RefusalText, TextPart};

/// What is wrong with the table of a place.
pub(crate) fn table_text(place: FilePlace, fault: KeyFault) -> RefusalText<'static>
    ensures { refusal_text result ≡ head (tables.row_of fault) ++ texts.table_rest place fault }
{
    let row = fault.row();
    match fault {
        KeyFault::UnknownKey | KeyFault::UnknownKind => RefusalText::headed(row, placed(place)),
        KeyFault::MissingKey(key) | KeyFault::WrongType(key) => {
            RefusalText::headed(row, placed_with(place, key.text()))
        }
        KeyFault::BadParameter(parameter) => {
            RefusalText::headed(row, placed_with(place, parameter.text()))
        }
        KeyFault::Memory => RefusalText::alone(row),
    }
}

/// Why the graph is refused at a place. `name` is that of the block that the refusal names.
pub(crate) fn graph_text<'a>(place: FilePlace, fault: GraphFault, name: &'a str) -> RefusalText<'a>
    ensures { refusal_text result ≡ head (graphs.row_of fault) ++ texts.graph_rest place fault name.now }
{
    let row = fault.row();
    match fault {
        GraphFault::UnknownBlock => RefusalText::headed(row, placed(place)),
        GraphFault::PortRange { side, port, .. } | GraphFault::PortGap { side, port, .. } => {
            RefusalText::headed(row, sided(name, side, TextPart::Number(port as u64)))
        }
        GraphFault::InputTaken { port, .. } | GraphFault::TypeMismatch { port, .. } => {
            RefusalText::headed(row, ported(name, port))
        }
        GraphFault::DuplicateName
        | GraphFault::Loop { .. }
        | GraphFault::TooFewPorts { .. }
        | GraphFault::OneToOne { .. }
        | GraphFault::Gain { .. } => RefusalText::headed(row, spoken(name)),
        GraphFault::TooLarge(limit) => RefusalText::headed(row, spoken(limit.text())),
        GraphFault::BadParameter(option) => {
            RefusalText::headed(row, placed_with(place, option.text()))
        }
        GraphFault::Memory => RefusalText::alone(row),
    }
}

/// The refusal of a negative port of the connection of a table. `name` is that of the block at this end, or empty.
pub(crate) fn negative_text<'a>(
    row: (u32, &'static str),
    place: FilePlace,
    name: &'a str,
    side: Side,
    port: i64,
) -> RefusalText<'a>
    ensures { refusal_text result ≡ head (row.entry.0, row.entry.1.now)
        ++ texts.negative_rest place name.now side port }
{
    let port = TextPart::Signed(port);
    let rest = if name.is_empty() {
        placed_sided(place, side, port)
    } else {
        sided(name, side, port)
    };
    RefusalText::headed(row, rest)
}

/// The refusal of a feed, counted from 0.
pub(crate) fn feed_text(feed: usize, fault: PlantFault) -> RefusalText<'static>
    ensures { refusal_text result ≡ head (feeds.row_of fault) ++ codes " feed " ++ decimal feed }
{
    let feed = TextPart::Number(feed as u64);
    let rest = [TextPart::Text(" feed "), feed, EMPTY, EMPTY, EMPTY, EMPTY];
    RefusalText::headed(fault.row(), rest)
}

// A text.
fn spoken(text: &str) -> [TextPart<'_>; 6]
    ensures { flat_map part_text result ≡ codes " " ++ text.now }
{
    [SPACE, TextPart::Text(text), EMPTY, EMPTY, EMPTY, EMPTY]
}

// A place.
fn placed<'a>(place: FilePlace) -> [TextPart<'a>; 6]
    ensures { flat_map part_text result ≡ codes " " ++ texts.place_text place }
{
    let (table, number) = place_parts(place);
    [SPACE, table, number, EMPTY, EMPTY, EMPTY]
}

// A place, and a text.
fn placed_with(place: FilePlace, text: &str) -> [TextPart<'_>; 6]
    ensures { flat_map part_text result ≡ codes " " ++ texts.place_text place ++ codes " " ++ text.now }
{
    let (table, number) = place_parts(place);
    [SPACE, table, number, SPACE, TextPart::Text(text), EMPTY]
}

// The name of a block and a port.
fn ported(name: &str, port: usize) -> [TextPart<'_>; 6]
    ensures { flat_map part_text result ≡ codes " " ++ name.now ++ codes " " ++ decimal port }
{
    let port = TextPart::Number(port as u64);
    [SPACE, TextPart::Text(name), SPACE, port, EMPTY, EMPTY]
}

// The name of a block, the side of a port and the port.
fn sided<'a>(name: &'a str, side: Side, port: TextPart<'a>) -> [TextPart<'a>; 6]
    ensures { flat_map part_text result ≡ codes " " ++ name.now ++ codes " " ++ side_text side ++ codes " "
        ++ part_text port.entry }
{
    [
        SPACE,
        TextPart::Text(name),
        SPACE,
        TextPart::Text(side.text()),
        SPACE,
        port,
    ]
}

// A place, the side of a port and the port.
fn placed_sided<'a>(place: FilePlace, side: Side, port: TextPart<'a>) -> [TextPart<'a>; 6]
    ensures { flat_map part_text result ≡ codes " " ++ texts.place_text place ++ codes " " ++ side_text side
        ++ codes " " ++ part_text port.entry }
{
    let (table, number) = place_parts(place);
    // (with the spaces around it, since there are six parts)
    let side = match side {
        Side::In => " in ",
        Side::Out => " out ",
    };
    [SPACE, table, number, TextPart::Text(side), port, EMPTY]
}

// The word for a place, and its number.
fn place_parts<'a>(place: FilePlace) -> (TextPart<'a>, TextPart<'a>)
    ensures { part_text result.0 ++ part_text result.1 ≡ texts.place_text place }
{
    match place {
        FilePlace::Top => (TextPart::Text("top"), TextPart::Text("")),
        FilePlace::Block(number) => (TextPart::Text("block "), TextPart::Number(number as u64)),
        FilePlace::Connect(number) => (TextPart::Text("connect "), TextPart::Number(number as u64)),
        FilePlace::Feed(number) => (TextPart::Text("feed "), TextPart::Number(number as u64)),
    }
}
