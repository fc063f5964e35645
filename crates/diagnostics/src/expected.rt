//! What may stand in a table of a graph file.

use crate::document::Document;
use block_parameters::Parameter;
use graph_file::FilePlace;
use items::ItemType;
use kind_schema::table::{small_at, type_at};
use kind_schema::{ItemTypes, Key, Keys, Range, ValueForm, keys_of, parameters_of, types_of};
use kinds::KindName;
use std::alloc::{AllocError, Global};

/// The names of item types, and of those larger than a byte.
pub(crate) const ANY_TYPE: &str = "\"byte\", \"short\" or \"int\"";

pub(crate) const WIDE_TYPE: &str = "\"short\" or \"int\"";

/// The form of a tag's key.
pub(crate) const KEY_TEXT: &str = "1 to 16 letters, digits, `_`, `.` or `-`";

/// What a table is, with its kind if that is known.
pub(crate) fn owner(document: &Document<'_>, place: FilePlace) -> Result<String, AllocError> {
    let alloc = document.alloc;
    match place {
        FilePlace::Top => String::from_str(alloc, "a graph file"),
        FilePlace::Block(_) => match document.kind_at(place) {
            Some(kind) => {
                let kind = kind.text();
                format!(in alloc; "a block of the kind {kind}")
            }
            None => String::from_str(alloc, "a block"),
        },
        FilePlace::Connect(_) => String::from_str(alloc, "a connection"),
        FilePlace::Feed(_) => String::from_str(alloc, "a feed"),
    }
}

/// The keys of a table.
pub(crate) fn known_keys(document: &Document<'_>, place: FilePlace) -> Keys {
    match place {
        FilePlace::Top => keys(&[Key::Block, Key::Connect, Key::Feed]),
        FilePlace::Block(_) => match document.kind_at(place) {
            Some(kind) => keys_of(kind),
            None => keys(&[Key::Name, Key::Kind]),
        },
        FilePlace::Connect(_) => keys(&[Key::From, Key::To, Key::FromPort, Key::ToPort]),
        FilePlace::Feed(_) => keys(&[Key::Source, Key::Items, Key::Marks]),
    }
}

fn keys(list: &[Key]) -> Keys {
    let mut keys = Keys::new();
    for key in list {
        let _ = keys.try_push(*key);
    }
    keys
}

/// Keys, one after the other.
pub(crate) fn listed_keys(alloc: Global, keys: &[Key]) -> Result<String, AllocError> {
    let mut out = String::new(alloc);
    for key in keys {
        if !out.is_empty() {
            out.push_str(", ")?;
        }
        out.push_str(key.text())?;
    }
    Ok(out)
}

/// The names of all kinds, one after the other.
pub(crate) fn listed_kinds(alloc: Global) -> Result<String, AllocError> {
    let mut out = String::new(alloc);
    for kind in KindName::all() {
        if !out.is_empty() {
            out.push_str(", ")?;
        }
        out.push_str(kind.text())?;
    }
    Ok(out)
}

/// What may stand at a key.
pub(crate) fn shape_text(key: Key) -> &'static str {
    match key {
        Key::Marks => {
            "an array of tables, each with `at`, a whole number, `key`, 1 to 16 letters, digits, `_`, `.` or `-`, and `value`, a whole number"
        }
        _ => match key.form() {
            ValueForm::Text => "a text",
            ValueForm::Number => "a whole number",
            ValueForm::Numbers => "an array of whole numbers",
            ValueForm::Tables => "an array of tables",
            ValueForm::Choice => "\"all\", \"none\" or \"one\"",
        },
    }
}

/// What a value is, by TOML's word for its type.
pub(crate) fn type_text(word: &'static str) -> &'static str {
    match word {
        "string" => "a text",
        "integer" => "a whole number",
        "float" => "a number with a fraction",
        "boolean" => "true or false",
        "datetime" => "a date or a time",
        "array" => "an array",
        _ => "a table",
    }
}

/// The name of an item type.
pub(crate) fn item_text(item: ItemType) -> &'static str {
    match item {
        ItemType::Byte => "byte",
        ItemType::Short => "short",
        ItemType::Int => "int",
    }
}

/// The range of items of a type.
pub(crate) fn item_range(item: ItemType) -> &'static str {
    match item {
        ItemType::Byte => "0 to 255",
        ItemType::Short => "-32768 to 32767",
        ItemType::Int => "-2147483648 to 2147483647",
    }
}

/// The range of a parameter of the block at a place.
pub(crate) fn range_text(
    document: &Document<'_>,
    place: FilePlace,
    parameter: Parameter,
) -> Result<String, AllocError> {
    let alloc = document.alloc;
    let Some(kind) = document.kind_at(place) else {
        return Ok(String::new(alloc));
    };
    if parameter == Parameter::ItemType {
        return match types_of(kind) {
            ItemTypes::Wide => String::from_str(alloc, WIDE_TYPE),
            ItemTypes::Bytes | ItemTypes::Any => String::from_str(alloc, ANY_TYPE),
        };
    }
    for (name, range) in parameters_of(kind) {
        if *name == parameter {
            return range_at(document, place, *range);
        }
    }
    Ok(String::new(alloc))
}

// The words for a range. Some ranges depend on what else the table has.
fn range_at(document: &Document<'_>, place: FilePlace, range: Range) -> Result<String, AllocError> {
    match range {
        Range::Item => String::from_str(document.alloc, item_range(item_of(document, place))),
        Range::Register(least) => register_range(document, place, least),
        _ => range_words(document.alloc, range),
    }
}

/// The words for a range, whatever else a table has.
pub(crate) fn range_words(alloc: Global, range: Range) -> Result<String, AllocError> {
    match range {
        Range::Number(least, most) => format!(in alloc; "{least} to {most}"),
        Range::Long(most) => format!(in alloc; "0 to {most}"),
        Range::AtLeast(parameter, most) => format!(in alloc; "{parameter} to {most}"),
        Range::Register(least) => format!(in alloc; "{least} to 2^bits - 1"),
        _ => String::from_str(alloc, fixed_words(range)),
    }
}

// The words for a range without numbers of its own; empty for others.
fn fixed_words(range: Range) -> &'static str {
    match range {
        Range::Type => ANY_TYPE,
        Range::Item => "a number of the type",
        Range::Short => item_range(ItemType::Short),
        Range::Switch => "0 or 1",
        Range::High => "a number of the type, at least `low`",
        Range::KeptOffset => "0 to n - m",
        Range::Period => "more than there are values, and at most 1024",
        Range::ValuesOffset => "0 to as much as `period` is more than there are values",
        Range::ItemBits => "1 to the bits of an item: 8, 16 or 32",
        Range::BitOrder => "\"msb_first\" or \"lsb_first\"",
        Range::Code => "a text of 1 to 64 digits 0 and 1",
        Range::Threshold => "0 to as many as `code` has digits",
        Range::Items => "1 to 256 numbers of the type",
        Range::TargetItems => "1 to 256 numbers of the type `to`",
        Range::Places => "the numbers 0 to n - 1 in any order, n from 1 to 256",
        Range::Taps => "1 to 256 numbers, each -32768 to 32767",
        Range::Bytes => "at most 256 numbers, each 0 to 255",
        Range::Lengths => "1 to 16 numbers, each 1 to 1024, at most 1024 together",
        Range::States => "1 to 4096 numbers of states, `symbols` of them for each state",
        Range::Outputs => "as many numbers as `next`, each 0 to 255",
        Range::State => "the number of a state, of which `next` has `symbols` for each",
        Range::FewStates =>
            "1 to 4096 numbers of states, `symbols` of them for each of at most 1024 states",
        Range::NumbersOfOutputs => "as many numbers as `next`, each 0 to less than `outputs`",
        Range::Steps =>
            "1 to as many that steps * outputs is at most 1024, and steps times the number of states at most 16384",
        Range::KnownState =>
            "the number of a state, of which `next` has `symbols` for each, or less than 0 where none is known",
        Range::Number(..) | Range::Long(_) | Range::AtLeast(..) | Range::Register(_) => "",
    }
}

/// The default of a parameter, as text after its range; empty if the parameter is required.
pub(crate) fn default_text(parameter: Parameter) -> &'static str {
    let key = Key::Parameter(parameter);
    match key.missing() {
        _ if key.is_needed() => "",
        _ if parameter == Parameter::Order => ", \"msb_first\" where it is missing",
        0 => ", 0 where it is missing",
        -1 => ", -1 where it is missing",
        _ => ", 1 where it is missing",
    }
}

// The item type of a block; bytes if the file names none.
fn item_of(document: &Document<'_>, place: FilePlace) -> ItemType {
    let Some(table) = document.table_at(place) else {
        return ItemType::Byte;
    };
    match type_at(table, Key::Parameter(Parameter::ItemType)) {
        Some(item) => item,
        None => ItemType::Byte,
    }
}

// The numbers that a register's bits can hold, from the least one on.
fn register_range(
    document: &Document<'_>,
    place: FilePlace,
    least: u64,
) -> Result<String, AllocError> {
    let bits = match document.table_at(place) {
        Some(table) => small_at(table, Key::Parameter(Parameter::Bits)),
        None => 0,
    };
    let most = (1u64 << bits.min(32)) - 1;
    format!(in document.alloc; "{least} to {most}, of {bits} bits")
}
