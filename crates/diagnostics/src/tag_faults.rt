//! What is wrong with a tag of a feed.

use crate::document::Document;
use crate::expected::{KEY_TEXT, type_text};
use crate::frame::Finding;
use crate::looks::shown;
use crate::pairs::{Pair, pair_of, pairs_of};
use crate::tokens::part;
use items::TagKey;
use kind_schema::table::{has_only, keys_fault, text_at, value_at};
use kind_schema::{Key, KeyFault};
use std::alloc::AllocError;
use toml::Table;

// The keys of a tag.
const KEYS: [Key; 3] = [Key::MarkAt, Key::MarkKey, Key::MarkValue];

/// Whether a table is a tag, whatever items it lies on.
pub(crate) fn is_tag(table: &Table) -> bool {
    has_only(table, &KEYS)
        && keys_fault(table, &KEYS).is_none()
        && TagKey::new(text_at(table, Key::MarkKey).as_bytes()).is_some()
}

/// Where the table at a place is no tag, and why.
pub(crate) fn tag_finding(
    document: &Document<'_>,
    place: usize,
    table: &Table,
) -> Result<Finding, AllocError> {
    let pairs = pairs_of(document.alloc, document.text, place)?;
    if !has_only(table, &KEYS) {
        return unknown_key(document, place, &pairs);
    }
    match keys_fault(table, &KEYS) {
        Some(KeyFault::MissingKey(key)) => {
            let (name, shape) = (key.text(), tag_shape(key));
            let message = format!(in document.alloc; "a tag needs the key `{name}`: {shape}")?;
            Ok(Finding { place, message })
        }
        Some(KeyFault::WrongType(key)) => wrong_value(document, place, &pairs, table, key),
        _ => wrong_value(document, place, &pairs, table, Key::MarkKey),
    }
}

/// Where the value of a tag's key begins; the place of the tag if the key is not found.
pub(crate) fn tag_value(
    document: &Document<'_>,
    place: usize,
    key: Key,
) -> Result<usize, AllocError> {
    let pairs = pairs_of(document.alloc, document.text, place)?;
    Ok(value_of(document, place, &pairs, key))
}

fn value_of(document: &Document<'_>, place: usize, pairs: &[Pair], key: Key) -> usize {
    match pair_of(document.text, pairs, key.text()) {
        Some(pair) => pair.value,
        None => place,
    }
}

// The first key that a tag does not have.
fn unknown_key(
    document: &Document<'_>,
    place: usize,
    pairs: &[Pair],
) -> Result<Finding, AllocError> {
    let alloc = document.alloc;
    for pair in pairs {
        let word = part(document.text, pair.key);
        if !KEYS.iter().any(|key| key.text().as_bytes() == word) {
            let word = shown(alloc, word)?;
            let message = format!(in alloc; "a tag has no key `{word}`; it has: at, key, value")?;
            return Ok(Finding {
                place: pair.start,
                message,
            });
        }
    }
    let message = String::from_str(alloc, "a tag has the keys at, key, value alone")?;
    Ok(Finding { place, message })
}

// A value that may not stand at a key of a tag.
fn wrong_value(
    document: &Document<'_>,
    place: usize,
    pairs: &[Pair],
    table: &Table,
    key: Key,
) -> Result<Finding, AllocError> {
    let alloc = document.alloc;
    let (name, shape) = (key.text(), tag_shape(key));
    let message = match value_at(table, key) {
        Some(value) if !(key == Key::MarkKey && value.is_str()) => {
            let found = type_text(value.type_str());
            format!(in alloc; "`{name}` of a tag takes {shape}; this is {found}")?
        }
        _ => format!(in alloc; "`{name}` of a tag takes {shape}")?,
    };
    Ok(Finding {
        place: value_of(document, place, pairs, key),
        message,
    })
}

// What may stand at a key of a tag.
fn tag_shape(key: Key) -> &'static str {
    match key {
        Key::MarkKey => KEY_TEXT,
        _ => "a whole number",
    }
}
