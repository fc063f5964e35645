//! The feeds of a graph file.
ghost use Rattle.std.specs.Prelude.{◌≡◌, ◌↔◌, IsTrue, Ok, IsOk, IsErrOf, Some, IsSome, [], map, IfOk, OnOk, IfErr, OnErr, option_map};
ghost use Rattle.toml.specs.Data.{as_table};
ghost use Rattle.toml.specs.View.{view, table_view, items_view};
ghost use Rattle.graph_file.specs.Refusals.{IsRefused};
ghost use Rattle.graph_file.specs.Steps.{steps, step_in, StepsTake, TakesIn};
ghost use Rattle.graph_file.specs.Feeds.{fed, feed_step, feed_in, mark_in, marks_of, FeedTakes};
ghost use Rattle.items.specs.Name.{name_of};

use crate::fault::{FileFault, FilePlace, table_fault};
use crate::feed::{Feed, FileMark};
use crate::only::only_fault;
use items::TagKey;
use kind_schema::table::{number_at, numbers_at, text_at, values_at};
use kind_schema::{Key, KeyFault};
use std::alloc::{AllocError, Global};
use toml::{Table, Value};

/// The feeds of an array of tables.
pub(crate) fn read_feeds(alloc: Global, values: &[Value]) -> Result<Vec<Feed>, FileFault>
    ensures ok { IfOk result (λ feeds. steps feed_step 0 [] (items_view values.now) ≡ Ok (map fed feeds.items)) }
    ensures refused { IfErr result (IsRefused (steps feed_step 0 [] (items_view values.now))) }
    ensures memory { IsErrOf result FileFault.Memory → StepsTake feed_step FeedTakes 0 [] (items_view values.now) }
{
    let mut feeds = Vec::new(alloc);
    for (number, value) in values.iter().enumerate() {
        if let Err(fault) = add_value(alloc, &mut feeds, number, value) {
            return Err(fault);
        }
    }
    Ok(feeds)
}

// Adds the feed of a value of the array. What is no table was refused before.
fn add_value(
    alloc: Global,
    feeds: &mut Vec<Feed>,
    number: usize,
    value: &Value,
) -> Result<(), FileFault>
    ensures ok { OnOk result (step_in feed_step number (map fed feeds.old.items) (as_table (view value.now))
        ≡ Ok (map fed feeds.new.items)) }
    ensures refused { IfErr result (IsRefused (step_in feed_step number (map fed feeds.old.items)
        (as_table (view value.now)))) }
    ensures memory { IsErrOf result FileFault.Memory → TakesIn FeedTakes number (map fed feeds.old.items)
        (as_table (view value.now)) }
{
    match value.as_table() {
        Some(table) => add_feed(alloc, feeds, number, table),
        None => Ok(()),
    }
}

// Adds the feed of a table.
fn add_feed(
    alloc: Global,
    feeds: &mut Vec<Feed>,
    number: usize,
    table: &Table,
) -> Result<(), FileFault>
    ensures ok { OnOk result (feed_step number (map fed feeds.old.items) (table_view table.now)
        ≡ Ok (map fed feeds.new.items)) }
    ensures refused { IfErr result (IsRefused (feed_step number (map fed feeds.old.items) (table_view table.now))) }
    ensures memory { IsErrOf result FileFault.Memory → FeedTakes number (map fed feeds.old.items)
        (table_view table.now) }
{
    match read_feed(alloc, number, table) {
        Ok(feed) => Ok(feeds.push(feed)?),
        Err(fault) => Err(fault),
    }
}

// The feed of a table.
fn read_feed(alloc: Global, number: usize, table: &Table) -> Result<Feed, FileFault>
    ensures ok { IfOk result (λ feed. feed_in number (table_view table.now) ≡ Ok (fed feed)) }
    ensures refused { IfErr result (IsRefused (feed_in number (table_view table.now))) }
    ensures memory { IsErrOf result FileFault.Memory → IsOk (feed_in number (table_view table.now)) }
{
    let place = FilePlace::Feed(number);
    let keys = [Key::Source, Key::Items, Key::Marks];
    if let Some(fault) = only_fault(table, &keys, &keys) {
        return Err(table_fault(place, fault));
    }
    let Some(marks) = read_marks(alloc, values_at(table, Key::Marks))? else {
        return Err(table_fault(place, KeyFault::WrongType(Key::Marks)));
    };
    Ok(Feed {
        source: Vec::from_slice(alloc, text_at(table, Key::Source).as_bytes())?,
        items: numbers_at(alloc, table, Key::Items)?,
        marks,
    })
}

// The tags of an array, or `None` if a value is no tag. It asks for memory only if each is one.
fn read_marks(alloc: Global, values: &[Value]) -> Result<Option<Vec<FileMark>>, AllocError>
    ensures ok { IfOk result (λ marks. option_map (λ v. v.items) marks ≡ marks_of (items_view values.now)) }
    ensures memory { OnErr result (IsSome (marks_of (items_view values.now))) }
{
    if !are_marks(values) {
        return Ok(None);
    }
    let mut marks = Vec::with_capacity(alloc, values.len())?;
    for value in values {
        match read_mark(value) {
            Some(mark) => marks.push_reserved(mark),
            None => return Ok(None),
        }
    }
    Ok(Some(marks))
}

fn are_marks(values: &[Value]) -> bool
    ensures { IsTrue result ↔ IsSome (marks_of (items_view values.now)) }
{
    for value in values {
        if read_mark(value).is_none() {
            return false;
        }
    }
    true
}

// The tag of a table, if it is one.
fn read_mark(value: &Value) -> Option<FileMark>
    ensures { result ≡ mark_in (as_table (view value.now)) }
{
    match value.as_table() {
        Some(table) => mark_of(table),
        None => None,
    }
}

fn mark_of(table: &Table) -> Option<FileMark>
    ensures { result ≡ mark_in (Some (table_view table.now)) }
{
    let keys = [Key::MarkAt, Key::MarkKey, Key::MarkValue];
    if only_fault(table, &keys, &keys).is_some() {
        return None;
    }
    match tag_key(text_at(table, Key::MarkKey).as_bytes()) {
        Some(key) => Some(FileMark {
            at: number_at(table, Key::MarkAt),
            key,
            value: number_at(table, Key::MarkValue),
        }),
        None => None,
    }
}

fn tag_key(text: &[u8]) -> Option<TagKey>
    ensures { result ≡ name_of 16 text.now }
{
    TagKey::new(text)
}
