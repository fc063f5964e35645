//! The way along connections from a block back to itself.

use crate::document::Document;
use kind_schema::Key;
use kind_schema::table::text_at;
use std::alloc::AllocError;

// A longer way is shown without its middle.
const MOST_SHOWN: usize = 12;

// No block.
const NOWHERE: usize = usize::MAX;

/// A shortest way from the block of a name back to it, like `a -> b -> a`; empty if there is none.
pub(crate) fn loop_text(document: &Document<'_>, name: &str) -> Result<String, AllocError> {
    let names = document.names()?;
    let way = match document.block_named(name) {
        Some(block) => way_back(document, names.len(), block)?,
        None => Vec::new(document.alloc),
    };
    let mut out = String::new(document.alloc);
    match put_way(&mut out, &names, &way) {
        Ok(()) => Ok(out),
        Err(refusal) => Err(refusal),
    }
}

fn put_way(out: &mut String, names: &[&str], way: &[usize]) -> Result<(), AllocError> {
    let last_shown = way.len().saturating_sub(MOST_SHOWN / 2);
    for (number, block) in way.iter().enumerate() {
        let is_shown = way.len() <= MOST_SHOWN || number < MOST_SHOWN / 2 || last_shown <= number;
        if number == MOST_SHOWN / 2 && !is_shown {
            out.push_str(" -> ..")?;
        }
        if is_shown {
            out.push_str(if number == 0 { "" } else { " -> " })?;
            out.push_str(names.get(*block).copied().unwrap_or(""))?;
        }
    }
    Ok(())
}

// The blocks of a shortest way from a block back to it, with this block at both ends; none if there is no way.
fn way_back(document: &Document<'_>, count: usize, block: usize) -> Result<Vec<usize>, AllocError> {
    let alloc = document.alloc;
    let links = links_of(document)?;
    let mut before = vec![in alloc; NOWHERE; count]?;
    let mut reached = vec![in alloc; block; 1]?;
    // Takes each reached block, one at a time, and goes on to those that it leads to.
    for number in 0..count {
        let Some(from) = reached.get(number).copied() else {
            break;
        };
        for (start, end) in &links {
            if *start == from && before.get(*end).copied() == Some(NOWHERE) {
                if let Some(place) = before.get_mut(*end) {
                    *place = from;
                }
                reached.reserve(1)?;
                reached.push_reserved(*end);
            }
        }
    }
    back_along(document, &before, block)
}

// The way that leads to a block, found from the block before each.
fn back_along(
    document: &Document<'_>,
    before: &[usize],
    block: usize,
) -> Result<Vec<usize>, AllocError> {
    let mut way = vec![in document.alloc; block; 1]?;
    let mut at = block;
    for _ in 0..before.len() {
        at = before.get(at).copied().unwrap_or(NOWHERE);
        way.reserve(1)?;
        way.push_reserved(at);
        if at == block || at == NOWHERE {
            break;
        }
    }
    if at == NOWHERE {
        way.clear();
    }
    way.reverse();
    Ok(way)
}

// The numbers of the blocks at both ends of each connection, if both ends are blocks.
fn links_of(document: &Document<'_>) -> Result<Vec<(usize, usize)>, AllocError> {
    let mut links = Vec::new(document.alloc);
    for value in document.connections() {
        if let Some(table) = value.as_table() {
            let from = document.block_named(text_at(table, Key::From));
            let to = document.block_named(text_at(table, Key::To));
            if let (Some(from), Some(to)) = (from, to) {
                links.reserve(1)?;
                links.push_reserved((from, to));
            }
        }
    }
    Ok(links)
}
