//! The page of all kinds of blocks: what each gives, and its parameters in graph files.

use crate::about::{setting_of, text_of};
use crate::expected::{ANY_TYPE, WIDE_TYPE, default_text, range_words};
use block_parameters::Parameter;
use kind_schema::{ItemTypes, Range, parameters_of, types_of};
use kinds::KindName;
use std::alloc::{AllocError, Global};

/// The page that `flow kinds` prints. It has the name of each kind with what it gives, and below it, each on a line,
/// the kind's item types, its parameters with their ranges, its rate and an example.
pub fn page_of_kinds(alloc: Global) -> Result<String, AllocError> {
    let mut page = String::new(alloc);
    for kind in KindName::all() {
        push_kind(alloc, &mut page, *kind)?;
    }
    Ok(page)
}

/// The part of that page about one kind. `flow kinds KIND` prints it.
pub fn page_of_kind(alloc: Global, kind: KindName) -> Result<String, AllocError> {
    let mut page = String::new(alloc);
    push_kind(alloc, &mut page, kind)?;
    Ok(page)
}

fn push_kind(alloc: Global, page: &mut String, kind: KindName) -> Result<(), AllocError> {
    let text = text_of(kind);
    push_line(page, kind.text(), text.equation)?;
    match types_of(kind) {
        ItemTypes::Bytes => {}
        ItemTypes::Any => push_line(page, "    type", ANY_TYPE)?,
        ItemTypes::Wide => push_line(page, "    type", WIDE_TYPE)?,
    }
    for (parameter, range) in parameters_of(kind) {
        push_parameter(alloc, page, kind, *parameter, *range)?;
    }
    if !text.rate.is_empty() {
        push_line(page, "    rate", text.rate)?;
    }
    if !text.example.is_empty() {
        push_line(page, "    example", text.example)?;
    }
    Ok(())
}

fn push_parameter(
    alloc: Global,
    page: &mut String,
    kind: KindName,
    parameter: Parameter,
    range: Range,
) -> Result<(), AllocError> {
    page.push_str("    ")?;
    page.push_str(parameter.text())?;
    page.push_str(": ")?;
    let words = range_words(alloc, range)?;
    page.push_str(words.as_str())?;
    page.push_str(default_text(parameter))?;
    if setting_of(kind) == Some(parameter) {
        page.push_str(", may be set")?;
    }
    page.push_str("\n")
}

fn push_line(page: &mut String, name: &str, text: &str) -> Result<(), AllocError> {
    page.push_str(name)?;
    page.push_str(": ")?;
    page.push_str(text)?;
    page.push_str("\n")
}
