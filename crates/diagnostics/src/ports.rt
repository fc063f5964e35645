//! The ports of the blocks of a graph file.

use crate::document::Document;
use block_trait::Block;
use flowgraph::Side;
use graph_file::FilePlace;
use kind_schema::table::{count_at, text_at};
use kind_schema::{Key, KeyFault, read_kind};
use std::alloc::AllocError;
use stream_model::Signature;
use toml::Table;

/// The port at a key of a connection.
pub(crate) fn port_of(table: &Table, key: Key) -> usize {
    count_at(table, key) as usize
}

/// The inputs and outputs of the block of a name.
pub(crate) fn sides_of(
    document: &Document<'_>,
    name: &str,
) -> Result<Option<(Signature, Signature)>, AllocError> {
    let Some(number) = document.block_named(name) else {
        return Ok(None);
    };
    let Some(table) = document.table_at(FilePlace::Block(number)) else {
        return Ok(None);
    };
    match read_kind(document.alloc, table) {
        Ok(kind) => Ok(Some((kind.inputs(), kind.outputs()))),
        Err(KeyFault::Memory) => Err(AllocError),
        Err(_) => Ok(None),
    }
}

/// Which ports the block of a name has on a side.
pub(crate) fn ports_text(
    document: &Document<'_>,
    name: &str,
    side: Side,
) -> Result<String, AllocError> {
    let alloc = document.alloc;
    let most = match (sides_of(document, name)?, side) {
        (Some((inputs, _)), Side::In) => inputs.most,
        (Some((_, outputs)), Side::Out) => outputs.most,
        (None, _) => 0,
    };
    let word = match side {
        Side::In => "input",
        Side::Out => "output",
    };
    match most {
        0 => format!(in alloc; "it has no {word}s"),
        1 => format!(in alloc; "it has one {word}, 0"),
        most => {
            let last = most - 1;
            format!(in alloc; "it has {word}s 0 to {last}")
        }
    }
}

/// How many inputs and outputs of the block of a name have connections, if there is no gap.
pub(crate) fn used_ports(document: &Document<'_>, name: &str) -> (usize, usize) {
    let mut inputs = 0usize;
    let mut outputs = 0usize;
    for value in document.connections() {
        if let Some(table) = value.as_table() {
            if text_at(table, Key::To).as_bytes() == name.as_bytes() {
                inputs = inputs.max(port_of(table, Key::ToPort).saturating_add(1));
            }
            if text_at(table, Key::From).as_bytes() == name.as_bytes() {
                outputs = outputs.max(port_of(table, Key::FromPort).saturating_add(1));
            }
        }
    }
    (inputs, outputs)
}

/// How many ports of the block of a name need connections, and how many have them, for each side that lacks some.
pub(crate) fn joined_ports(document: &Document<'_>, name: &str) -> Result<String, AllocError> {
    let (used_in, used_out) = used_ports(document, name);
    let Some((inputs, outputs)) = sides_of(document, name)? else {
        return String::from_str(document.alloc, "it needs more connections");
    };
    let taken = lacking(document, inputs, used_in, "input")?;
    let given = lacking(document, outputs, used_out, "output")?;
    let and = if taken.is_empty() || given.is_empty() {
        ""
    } else {
        ", and "
    };
    format!(in document.alloc; "`{name}` needs {taken}{and}{given}")
}

// The message that a side of a block lacks connections; empty if it lacks none.
fn lacking(
    document: &Document<'_>,
    side: Signature,
    used: usize,
    word: &str,
) -> Result<String, AllocError> {
    let alloc = document.alloc;
    let (least, most) = (side.least as usize, side.most as usize);
    let at_least = if least < most { "at least " } else { "" };
    let plural = if least == 1 { "" } else { "s" };
    match used {
        _ if least <= used => Ok(String::new(alloc)),
        0 => format!(in alloc; "{at_least}{least} connected {word}{plural} and has none"),
        _ => format!(in alloc; "{at_least}{least} connected {word}{plural} and has {used}"),
    }
}
