//! What is wrong with a graph, or with a block or a connection of it.

use crate::document::Document;
use crate::expected::item_text;
use crate::frame::Finding;
use crate::looks::shown;
use crate::loops::loop_text;
use crate::near::hint;
use crate::ports::{joined_ports, port_of, ports_text, sides_of, used_ports};
use flowgraph::{BlockOption, GraphFault, Limit, Side};
use graph_file::FilePlace;
use kind_schema::Key;
use kind_schema::table::{small_at, text_at};
use std::alloc::AllocError;

/// Where a graph is wrong, and why. `name` is that of the block that the refusal names.
pub(crate) fn graph_finding(
    document: &Document<'_>,
    place: FilePlace,
    fault: GraphFault,
    name: &str,
) -> Result<Finding, AllocError> {
    match fault {
        GraphFault::DuplicateName => doubled_name(document, place, name),
        GraphFault::UnknownBlock => unknown_block(document, place),
        GraphFault::PortRange { side, port, .. } => port_range(document, place, name, side, port),
        GraphFault::InputTaken { port, .. } => input_taken(document, place, name, port),
        GraphFault::TypeMismatch { .. } => type_mismatch(document, place),
        GraphFault::TooLarge(limit) => too_large(document, place, limit),
        GraphFault::BadParameter(option) => bad_option(document, place, option),
        GraphFault::Memory => Err(AllocError),
        fault => whole_finding(document, fault, name),
    }
}

/// Where a negative port stands.
pub(crate) fn negative_finding(
    document: &Document<'_>,
    place: FilePlace,
    side: Side,
    port: i64,
) -> Result<Finding, AllocError> {
    let message = format!(in document.alloc; "there is no port {port}: ports are counted from 0")?;
    Ok(document.at_value(place, port_key(side), message))
}

fn port_key(side: Side) -> Key {
    match side {
        Side::In => Key::ToPort,
        Side::Out => Key::FromPort,
    }
}

/// The word for a side.
pub(crate) fn side_text(side: Side) -> &'static str {
    match side {
        Side::In => "input",
        Side::Out => "output",
    }
}

fn doubled_name(
    document: &Document<'_>,
    place: FilePlace,
    name: &str,
) -> Result<Finding, AllocError> {
    let alloc = document.alloc;
    let message = match document.block_named(name) {
        Some(first) => {
            let line = document.line_of(document.value_of(FilePlace::Block(first), Key::Name));
            format!(in alloc; "the block of line {line} has the name `{name}` already")?
        }
        None => format!(in alloc; "another block has the name `{name}`")?,
    };
    Ok(document.at_value(place, Key::Name, message))
}

fn unknown_block(document: &Document<'_>, place: FilePlace) -> Result<Finding, AllocError> {
    let alloc = document.alloc;
    let Some(table) = document.table_at(place) else {
        return Ok(document.at_table(place, String::new(alloc)));
    };
    let key = match document.block_named(text_at(table, Key::From)) {
        Some(_) => Key::To,
        None => Key::From,
    };
    let message = no_block(document, text_at(table, key))?;
    Ok(document.at_value(place, key, message))
}

/// The message that no block has this name, and which block's name is close to it.
pub(crate) fn no_block(document: &Document<'_>, name: &str) -> Result<String, AllocError> {
    let alloc = document.alloc;
    let names = document.names()?;
    let hint = hint(alloc, name, names.as_slice())?;
    let name = shown(alloc, name.as_bytes())?;
    format!(in alloc; "no block has the name `{name}`{hint}")
}

fn port_range(
    document: &Document<'_>,
    place: FilePlace,
    name: &str,
    side: Side,
    port: usize,
) -> Result<Finding, AllocError> {
    let ports = ports_text(document, name, side)?;
    let word = side_text(side);
    let message = format!(in document.alloc; "`{name}` has no {word} {port}: {ports}")?;
    let key = port_key(side);
    let end = match side {
        Side::In => Key::To,
        Side::Out => Key::From,
    };
    // (if no port is named, it is 0)
    let is_named = document.value_of(place, key) != document.start_of(place);
    Ok(document.at_value(place, if is_named { key } else { end }, message))
}

fn input_taken(
    document: &Document<'_>,
    place: FilePlace,
    name: &str,
    port: usize,
) -> Result<Finding, AllocError> {
    let alloc = document.alloc;
    for (number, value) in document.connections().iter().enumerate() {
        if let Some(table) = value.as_table() {
            let is_there = text_at(table, Key::To).as_bytes() == name.as_bytes();
            if is_there && port_of(table, Key::ToPort) == port {
                let line = document.line_of(document.start_of(FilePlace::Connect(number)));
                let message = format!(in alloc;
                    "input {port} of `{name}` has a connection already, that of line {line}"
                )?;
                return Ok(document.at_value(place, Key::To, message));
            }
        }
    }
    let message = format!(in alloc; "input {port} of `{name}` has a connection already")?;
    Ok(document.at_value(place, Key::To, message))
}

fn type_mismatch(document: &Document<'_>, place: FilePlace) -> Result<Finding, AllocError> {
    let alloc = document.alloc;
    let Some(table) = document.table_at(place) else {
        return Ok(document.at_table(place, String::new(alloc)));
    };
    let (from, to) = (text_at(table, Key::From), text_at(table, Key::To));
    let message = match (sides_of(document, from)?, sides_of(document, to)?) {
        (Some((_, given)), Some((taken, _))) => {
            let (given, taken) = (item_text(given.item), item_text(taken.item));
            format!(in alloc; "`{from}` gives items of type {given}, and `{to}` takes {taken}")?
        }
        _ => format!(in alloc; "`{from}` gives items of another type than `{to}` takes")?,
    };
    Ok(document.at_table(place, message))
}

fn too_large(
    document: &Document<'_>,
    place: FilePlace,
    limit: Limit,
) -> Result<Finding, AllocError> {
    let message = match limit {
        Limit::Blocks => "a graph has at most 256 blocks",
        Limit::Connections => "a graph has at most 1024 connections",
    };
    Ok(document.at_table(place, String::from_str(document.alloc, message)?))
}

fn bad_option(
    document: &Document<'_>,
    place: FilePlace,
    option: BlockOption,
) -> Result<Finding, AllocError> {
    let alloc = document.alloc;
    let multiple = match document.table_at(place) {
        Some(table) => small_at(table, Key::Multiple),
        None => 0,
    };
    let (key, message) = match option {
        BlockOption::Name => (
            Key::Name,
            "a name has 1 to 32 letters, digits, `_`, `.` or `-`, of ASCII",
        ),
        BlockOption::Multiple if (1..=64).contains(&multiple) => (
            Key::Multiple,
            "this block fires once at a time: its `multiple` must be 1",
        ),
        BlockOption::Multiple => (Key::Multiple, "`multiple` takes 1 to 64"),
        BlockOption::Capacity => (Key::Capacity, "`capacity` takes 1 to 65536"),
    };
    Ok(document.at_value(place, key, String::from_str(alloc, message)?))
}

// Why a graph is refused as a whole, shown at the block of a name.
fn whole_finding(
    document: &Document<'_>,
    fault: GraphFault,
    name: &str,
) -> Result<Finding, AllocError> {
    let alloc = document.alloc;
    let message = match fault {
        GraphFault::PortGap { side, port, .. } => {
            let word = side_text(side);
            format!(in alloc;
                "{word} {port} of `{name}` has no connection, and a higher {word} has one"
            )?
        }
        GraphFault::TooFewPorts { .. } => joined_ports(document, name)?,
        GraphFault::OneToOne { .. } => {
            let (inputs, outputs) = used_ports(document, name);
            format!(in alloc;
                "`tags = \"one\"` needs as many inputs as outputs in use; `{name}` has {inputs} and {outputs}"
            )?
        }
        GraphFault::Loop { .. } => {
            let way = loop_text(document, name)?;
            format!(in alloc; "connections lead from `{name}` back to it: {way}")?
        }
        _ => {
            format!(in alloc;
                "along a path up to `{name}` the gains multiply to more than 16777216"
            )?
        }
    };
    let key = match fault {
        GraphFault::OneToOne { .. } => Key::Tags,
        _ => Key::Name,
    };
    Ok(match document.block_named(name) {
        Some(number) => document.at_value(FilePlace::Block(number), key, message),
        None => document.at_table(FilePlace::Top, message),
    })
}
