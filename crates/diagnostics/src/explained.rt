//! Why a graph file is refused, and where.

use crate::document::Document;
use crate::feed_faults::feed_finding;
use crate::frame::{Finding, Source, framed};
use crate::graph_faults::{graph_finding, negative_finding};
use crate::headers::{single_before, single_header};
use crate::looks::Look;
use crate::places::{Place, place_in};
use crate::table_faults::table_finding;
use crate::tokens::line_of;
use graph_file::FileFault;
use std::alloc::{AllocError, Global};

/// Where and why a graph file of this name is refused, by its fault: lines that show the place. It fails only if the
/// allocator refuses.
pub fn explain(
    alloc: Global,
    name: &str,
    text: &[u8],
    fault: &FileFault,
) -> Result<String, AllocError> {
    let finding = finding_of(alloc, text, fault)?;
    let source = Source {
        name,
        text,
        first_line: 1,
        look: Look::Line,
    };
    framed(alloc, &source, &finding)
}

/// The place in a graph file of its fault, and the reason.
pub fn place_of(alloc: Global, text: &[u8], fault: &FileFault) -> Result<Place, AllocError> {
    let finding = finding_of(alloc, text, fault)?;
    Ok(place_in(text, finding))
}

// The place of a fault, and the message about it.
fn finding_of(alloc: Global, text: &[u8], fault: &FileFault) -> Result<Finding, AllocError> {
    let words = match std::str::from_utf8(text) {
        Ok(words) => words,
        Err(error) => {
            return Ok(Finding {
                place: error.valid_up_to(),
                message: String::from_str(alloc, "this byte is no text in UTF-8")?,
            });
        }
    };
    let table = match toml::table_from_str(alloc, words) {
        Ok(table) => table,
        Err(error) => return syntax_finding(alloc, text, &error),
    };
    let document = Document::new(alloc, text, table)?;
    match fault {
        FileFault::Syntax | FileFault::Memory => Err(AllocError),
        FileFault::Table { place, fault } => table_finding(&document, *place, *fault),
        FileFault::Graph { place, fault, name } => graph_finding(
            &document,
            *place,
            *fault,
            name.as_str(),
        ),
        FileFault::NegativePort {
            place,
            side,
            port,
            ..
        } => negative_finding(&document, *place, *side, *port),
        FileFault::Feed { feed, fault } => feed_finding(&document, *feed, *fault),
    }
}

// The message of the TOML reader. For a header, also whether it lacks brackets, or whether an earlier header that lacks
// them makes it wrong.
fn syntax_finding(
    alloc: Global,
    text: &[u8],
    error: &toml::de::Error,
) -> Result<Finding, AllocError> {
    let Some(span) = error.span() else {
        return Err(AllocError);
    };
    let (said, place) = (error.message(), span.start);
    let message = if let Some(name) = single_header(text, place) {
        format!(in alloc; "{said}; is `[[{name}]]` meant?")?
    } else if let Some((name, first)) = single_before(alloc, text, place)? {
        let line = line_of(text, first);
        format!(in alloc; "{said}; is `[[{name}]]` meant in line {line}?")?
    } else {
        String::from_str(alloc, said)?
    };
    Ok(Finding { place, message })
}
