//! What is wrong with a table of a graph file.

use crate::document::Document;
use crate::expected::{
    known_keys, listed_keys, listed_kinds, owner, range_text, shape_text, type_text,
};
use crate::feed_faults::is_in;
use crate::frame::Finding;
use crate::gnu_radio::{Stands, key_hint, stands_for};
use crate::looks::shown;
use crate::near::near_name;
use crate::tag_faults::{is_tag, tag_finding};
use crate::tokens::part;
use block_parameters::Parameter;
use graph_file::FilePlace;
use items::ItemType;
use kind_schema::table::{text_at, type_at, value_at, values_at};
use kind_schema::{Key, KeyFault, ValueForm};
use kinds::KindName;
use std::alloc::{AllocError, Global};
use toml::{Table, Value};

/// Where a table is wrong, and what may stand there.
pub(crate) fn table_finding(
    document: &Document<'_>,
    place: FilePlace,
    fault: KeyFault,
) -> Result<Finding, AllocError> {
    match fault {
        KeyFault::UnknownKey => unknown_key(document, place),
        KeyFault::MissingKey(key) => missing_key(document, place, key),
        KeyFault::WrongType(key) => wrong_type(document, place, key),
        KeyFault::UnknownKind => unknown_kind(document, place),
        KeyFault::BadParameter(parameter) => bad_parameter(document, place, parameter),
        KeyFault::Memory => Err(AllocError),
    }
}

fn is_known(keys: &[Key], word: &[u8]) -> bool {
    keys.iter().any(|key| word == key.text().as_bytes())
}

fn unknown_key(document: &Document<'_>, place: FilePlace) -> Result<Finding, AllocError> {
    let alloc = document.alloc;
    let keys = known_keys(document, place);
    let owner = owner(document, place)?;
    let list = listed_keys(alloc, &keys)?;
    for entry in &document.entries {
        let Some(span) = entry.key else {
            continue;
        };
        let word = part(document.text, span);
        // (with escapes it may be any key)
        if entry.table == place && !word.contains(&b'\\') && !is_known(&keys, word) {
            let hint = match document.kind_at(place) {
                Some(kind) => key_hint(alloc, kind, word)?,
                None => String::new(alloc),
            };
            let word = shown(alloc, word)?;
            return Ok(Finding {
                place: entry.start,
                message: format!(in alloc; "{owner} has no key `{word}`{hint}; it has: {list}")?,
            });
        }
    }
    let message = format!(in alloc; "{owner} has a key that is none of: {list}")?;
    Ok(document.at_table(place, message))
}

fn missing_key(document: &Document<'_>, place: FilePlace, key: Key) -> Result<Finding, AllocError> {
    let owner = owner(document, place)?;
    let (name, shape) = (key.text(), shape_text(key));
    let message = format!(in document.alloc; "{owner} needs the key `{name}`: {shape}")?;
    Ok(document.at_table(place, message))
}

fn wrong_type(document: &Document<'_>, place: FilePlace, key: Key) -> Result<Finding, AllocError> {
    let alloc = document.alloc;
    let (name, shape) = (key.text(), shape_text(key));
    let value = match document.table_at(place) {
        Some(table) => value_at(table, key),
        None => None,
    };
    let Some(value) = value else {
        let message = format!(in alloc; "`{name}` takes {shape}")?;
        return Ok(document.at_value(place, key, message));
    };
    if let Some((number, found)) = misfit(key, value) {
        let array = document.value_of(place, key);
        return Ok(Finding {
            place: document.item_of(array, number),
            message: format!(in alloc; "`{name}` takes {shape}; this item is {found}")?,
        });
    }
    if let Some((number, tag)) = bad_tag(key, value) {
        let array = document.value_of(place, key);
        return tag_finding(document, document.item_of(array, number), tag);
    }
    let message = match key.form() {
        ValueForm::Tables if value.is_table() && place == FilePlace::Top => format!(in alloc;
            "`{name}` takes {shape}; this is a table: is `[[{name}]]` meant?"
        )?,
        ValueForm::Choice | ValueForm::Tables if value.is_str() || value.is_array() =>
            format!(in alloc; "`{name}` takes {shape}")?,
        _ => {
            let found = type_text(value.type_str());
            format!(in alloc; "`{name}` takes {shape}; this is {found}")?
        }
    };
    Ok(document.at_value(place, key, message))
}

// The first item of an array that may not stand at a key.
fn misfit(key: Key, value: &Value) -> Option<(usize, &'static str)> {
    let is_of_tables = match key.form() {
        ValueForm::Numbers => false,
        ValueForm::Tables => true,
        _ => return None,
    };
    for (number, item) in value.as_array()?.iter().enumerate() {
        let fits = if is_of_tables {
            item.is_table()
        } else {
            item.is_integer()
        };
        if !fits {
            return Some((number, type_text(item.type_str())));
        }
    }
    None
}

// The first table among the tags of a feed that is no tag.
fn bad_tag(key: Key, value: &Value) -> Option<(usize, &Table)> {
    if key != Key::Marks {
        return None;
    }
    for (number, item) in value.as_array()?.iter().enumerate() {
        if let Some(table) = item.as_table() {
            if !is_tag(table) {
                return Some((number, table));
            }
        }
    }
    None
}

fn unknown_kind(document: &Document<'_>, place: FilePlace) -> Result<Finding, AllocError> {
    let alloc = document.alloc;
    let word = match document.table_at(place) {
        Some(table) => text_at(table, Key::Kind),
        None => "",
    };
    let message = match stands_for(word.as_bytes()) {
        Some(Stands::Kind(kind)) => {
            let (word, kind) = (shown(alloc, word.as_bytes())?, kind.text());
            format!(in alloc; "there is no kind `{word}`; GNU Radio's block is `{kind}` here")?
        }
        Some(Stands::Connection) => {
            let word = shown(alloc, word.as_bytes())?;
            format!(in alloc; "there is no kind `{word}`; GNU Radio's block is a connection here")?
        }
        None => no_kind(alloc, word)?,
    };
    Ok(document.at_value(place, Key::Kind, message))
}

// The message that a word is no kind, with the closest kind, or all of them.
fn no_kind(alloc: Global, word: &str) -> Result<String, AllocError> {
    let mut names = Vec::new(alloc);
    for kind in KindName::all() {
        names.push(kind.text())?;
    }
    let near = near_name(alloc, word, names.as_slice())?;
    let word = shown(alloc, word.as_bytes())?;
    match near {
        Some(kind) => format!(in alloc; "there is no kind `{word}`; is `{kind}` meant?"),
        None => {
            let list = listed_kinds(alloc)?;
            format!(in alloc; "there is no kind `{word}`; there are: {list}")
        }
    }
}

fn bad_parameter(
    document: &Document<'_>,
    place: FilePlace,
    parameter: Parameter,
) -> Result<Finding, AllocError> {
    let owner = owner(document, place)?;
    let range = range_text(document, place, parameter)?;
    let name = parameter.text();
    let message = format!(in document.alloc; "`{name}` of {owner} takes {range}")?;
    let value = document.value_of(place, Key::Parameter(parameter));
    Ok(Finding {
        place: match bad_number(document, place, parameter) {
            Some(number) => document.item_of(value, number),
            None => value,
        },
        message,
    })
}

// The first number of a list that may not stand in it, whatever the other numbers are.
fn bad_number(document: &Document<'_>, place: FilePlace, parameter: Parameter) -> Option<usize> {
    let values = values_at(document.table_at(place)?, Key::Parameter(parameter));
    for (number, value) in values.iter().enumerate() {
        if let Some(found) = value.as_integer() {
            if !may_stand(document, place, parameter, values.len(), found)? {
                return Some(number);
            }
        }
    }
    None
}

// Whether a number may stand in a list of so many; none if the parameter is no list.
fn may_stand(
    document: &Document<'_>,
    place: FilePlace,
    parameter: Parameter,
    count: usize,
    number: i64,
) -> Option<bool> {
    Some(match parameter {
        Parameter::Map => is_in(ItemType::Byte, number),
        Parameter::Taps => is_in(ItemType::Short, number),
        Parameter::Lengths => 1 <= number && number <= 1024,
        Parameter::Places => match usize::try_from(number) {
            Ok(place) => place < count,
            Err(_) => false,
        },
        Parameter::Values => is_in(type_of_values(document, place)?, number),
        _ => return None,
    })
}

// The type of the numbers of a list `values`.
fn type_of_values(document: &Document<'_>, place: FilePlace) -> Option<ItemType> {
    let key = match document.kind_at(place)? {
        KindName::Table => Parameter::To,
        _ => Parameter::ItemType,
    };
    type_at(document.table_at(place)?, Key::Parameter(key))
}
