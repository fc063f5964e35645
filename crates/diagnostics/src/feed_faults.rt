//! What is wrong with a feed.

use crate::document::Document;
use crate::expected::{item_range, item_text};
use crate::frame::Finding;
use crate::graph_faults::no_block;
use crate::ports::sides_of;
use crate::tag_faults::tag_value;
use graph_file::FilePlace;
use items::ItemType;
use kind_schema::Key;
use kind_schema::table::{number_at, text_at, values_at};
use plant_faults::PlantFault;
use std::alloc::AllocError;
use toml::Table;

/// Where a feed is wrong, and why.
pub(crate) fn feed_finding(
    document: &Document<'_>,
    number: usize,
    fault: PlantFault,
) -> Result<Finding, AllocError> {
    let alloc = document.alloc;
    let place = FilePlace::Feed(number);
    let Some(table) = document.table_at(place) else {
        return Ok(document.at_table(place, String::new(alloc)));
    };
    let name = text_at(table, Key::Source);
    match fault {
        PlantFault::NoSuchBlock => {
            let message = no_block(document, name)?;
            Ok(document.at_value(place, Key::Source, message))
        }
        PlantFault::NotSource => {
            let message = match document.block_named(name) {
                Some(block) => match document.kind_at(FilePlace::Block(block)) {
                    Some(kind) => {
                        let kind = kind.text();
                        format!(in alloc;
                            "`{name}` is of the kind {kind}: only a vector_source is fed"
                        )?
                    }
                    None => format!(in alloc; "`{name}` is no source")?,
                },
                None => format!(in alloc; "`{name}` is no source")?,
            };
            Ok(document.at_value(place, Key::Source, message))
        }
        PlantFault::ItemRange => item_range_finding(document, place, table),
        PlantFault::TagPlace => place_finding(document, number, table),
        PlantFault::Memory => Err(AllocError),
        _ => {
            let message = String::from_str(
                alloc,
                "the tape would be longer than 4294967296 items",
            )?;
            Ok(document.at_value(place, Key::Items, message))
        }
    }
}

// The first number outside the range of the source's type.
fn item_range_finding(
    document: &Document<'_>,
    place: FilePlace,
    table: &Table,
) -> Result<Finding, AllocError> {
    let name = text_at(table, Key::Source);
    let item = match sides_of(document, name)? {
        Some((_, outputs)) => outputs.item,
        None => ItemType::Byte,
    };
    let (word, range) = (item_text(item), item_range(item));
    let message = format!(in document.alloc; "`{name}` gives items of type {word}: {range}")?;
    let array = document.value_of(place, Key::Items);
    for (number, value) in values_at(table, Key::Items).iter().enumerate() {
        if let Some(found) = value.as_integer() {
            if !is_in(item, found) {
                return Ok(Finding {
                    place: document.item_of(array, number),
                    message,
                });
            }
        }
    }
    Ok(document.at_value(place, Key::Items, message))
}

/// Whether a number is in the range of a type.
pub(crate) fn is_in(item: ItemType, number: i64) -> bool {
    match item {
        ItemType::Byte => u8::try_from(number).is_ok(),
        ItemType::Short => i16::try_from(number).is_ok(),
        ItemType::Int => i32::try_from(number).is_ok(),
    }
}

// The first tag that lies on none of the items of its feed, shown at its offset.
fn place_finding(
    document: &Document<'_>,
    feed: usize,
    table: &Table,
) -> Result<Finding, AllocError> {
    let alloc = document.alloc;
    let place = FilePlace::Feed(feed);
    let first = tape_before(document, feed, text_at(table, Key::Source));
    let count = values_at(table, Key::Items).len() as u64;
    let message = if count == 0 {
        String::from_str(
            alloc,
            "a tag lies on an item of its feed, and this feed has none",
        )?
    } else {
        let last = first.saturating_add(count - 1);
        format!(in alloc;
            "a tag lies on an item of its feed: these are the items {first} to {last} of the tape"
        )?
    };
    let array = document.value_of(place, Key::Marks);
    for (number, value) in values_at(table, Key::Marks).iter().enumerate() {
        if let Some(mark) = value.as_table() {
            let at = number_at(mark, Key::MarkAt);
            let is_on = match u64::try_from(at) {
                Ok(at) => first <= at && at - first < count,
                Err(_) => false,
            };
            if !is_on {
                let tag = document.item_of(array, number);
                return Ok(Finding {
                    place: tag_value(document, tag, Key::MarkAt)?,
                    message,
                });
            }
        }
    }
    Ok(document.at_value(place, Key::Marks, message))
}

// How many items the feeds before one put on the tape of a source.
fn tape_before(document: &Document<'_>, feed: usize, source: &str) -> u64 {
    let mut count = 0u64;
    for (number, value) in document.feeds().iter().enumerate() {
        if let Some(table) = value.as_table() {
            if number < feed && text_at(table, Key::Source).as_bytes() == source.as_bytes() {
                count = count.saturating_add(values_at(table, Key::Items).len() as u64);
            }
        }
    }
    count
}
