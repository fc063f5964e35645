//! Reads values from a table of a graph file.
ghost use Rattle.std.specs.Prelude.{◌≡◌, IfOk, option_map, take};
ghost use Rattle.std.specs.Prelude.{pos, string_bytes};
ghost use Rattle.toml.specs.Data.{as_integer};
ghost use Rattle.std.specs.List.{list_all};
ghost use Rattle.std.specs.BTreeMap as tree;
ghost use Rattle.toml.specs.View.{view, table_view, items_view};
ghost use Rattle.kind_schema.specs.Tables as tables;
ghost use Rattle.kind_schema.specs.Tables.{at_key, string_in, array_in, count_of};

use crate::fault::KeyFault;
use crate::key::{Key, ValueForm};
use arrayvec::ArrayVec;
use items::ItemType;
use kind_model::BitOrder;
use std::alloc::{AllocError, Global};
use stream_model::Policy;
use toml::{Table, Value};

/// The value at a key.
pub fn value_at<'a>(table: &'a Table, key: Key) -> Option<&'a Value>
    ensures { option_map (λ v. view v.now) result ≡ at_key key (table_view table.now) }
{
    table.get(key.text())
}

/// The text at a key.
pub fn string_at<'a>(table: &'a Table, key: Key) -> Option<&'a str>
    ensures { option_map (λ s. s.now) result ≡ string_in (at_key key (table_view table.now)) }
{
    match value_at(table, key) {
        Some(value) => value.as_str(),
        None => None,
    }
}

/// The text at a key; empty if there is none.
pub fn text_at<'a>(table: &'a Table, key: Key) -> &'a str
    ensures { result.now ≡ tables.text_at (table_view table.now) key }
{
    match string_at(table, key) {
        Some(text) => text,
        None => "",
    }
}

/// The whole number at a key, or the default for a missing one.
pub fn number_at(table: &Table, key: Key) -> i64
    ensures { result ≡ tables.number_at (table_view table.now) key }
{
    match value_at(table, key) {
        Some(value) => match value.as_integer() {
            Some(number) => number,
            None => key.missing(),
        },
        None => key.missing(),
    }
}

/// The whole number at a key, unsigned. A negative number becomes the greatest one, which is outside every range.
pub fn count_at(table: &Table, key: Key) -> u64
    ensures { result ≡ tables.count_at (table_view table.now) key }
{
    count_of(number_at(table, key))
}

fn count_of(number: i64) -> u64
    ensures { result ≡ count_of number }
{
    if number < 0 { u64::MAX } else { number as u64 }
}

/// The whole number at a key, unsigned, as 32 bits. A negative number, or one that does not fit, becomes the greatest
/// one, which is outside every range.
pub fn small_at(table: &Table, key: Key) -> u32
    ensures { result ≡ tables.small_at (table_view table.now) key }
{
    count_at(table, key).min(u64::from(u32::MAX)) as u32
}

/// The values of the array at a key; none if there is no array.
pub fn values_at<'a>(table: &'a Table, key: Key) -> &'a [Value]
    ensures { items_view result.now ≡ tables.items_at (table_view table.now) key }
{
    match value_at(table, key) {
        Some(value) => match value.as_array() {
            Some(values) => values.as_slice(),
            None => &[],
        },
        None => &[],
    }
}

/// The whole numbers of the array at a key.
pub fn numbers_at(alloc: Global, table: &Table, key: Key) -> Result<Vec<i64>, AllocError>
    ensures { IfOk result (λ numbers. numbers.items ≡ tables.numbers_at (table_view table.now) key) }
{
    numbers_of(alloc, values_at(table, key))
}

fn numbers_of(alloc: Global, values: &[Value]) -> Result<Vec<i64>, AllocError>
    ensures { IfOk result (λ numbers. numbers.items ≡ tables.numbers_of (items_view values.now)) }
{
    let mut numbers = Vec::with_capacity(alloc, values.len())?;
    for value in values {
        numbers.push_reserved(number_of(value));
    }
    Ok(numbers)
}

/// The first `COUNT` whole numbers of the array at a key. The copy takes no memory, and shows whether the list has that
/// many.
pub(crate) fn first_numbers_at<const COUNT: usize>(table: &Table, key: Key) -> ArrayVec<i64, COUNT>
    ensures { result.items ≡ take COUNT (tables.numbers_at (table_view table.now) key) }
{
    first_numbers(values_at(table, key))
}

fn first_numbers<const COUNT: usize>(values: &[Value]) -> ArrayVec<i64, COUNT>
    ensures { result.items ≡ take COUNT (tables.numbers_of (items_view values.now)) }
{
    let mut numbers = ArrayVec::new();
    let first = &values[..values.len().min(COUNT)];
    for value in first {
        numbers.push(number_of(value));
    }
    numbers
}

fn number_of(value: &Value) -> i64
    ensures { result ≡ tables.integer_or (pos 0) (as_integer (view value.now)) }
{
    match value.as_integer() {
        Some(number) => number,
        None => 0,
    }
}

/// The type that the text at a key names, or `None` if it names none.
pub fn type_at(table: &Table, key: Key) -> Option<ItemType>
    ensures { result ≡ tables.type_at (table_view table.now) key }
{
    match string_at(table, key) {
        Some(text) => type_named(text),
        None => Some(ItemType::Byte),
    }
}

fn type_named(text: &str) -> Option<ItemType>
    ensures { result ≡ tables.type_named text.now }
{
    match text {
        "byte" => Some(ItemType::Byte),
        "short" => Some(ItemType::Short),
        "int" => Some(ItemType::Int),
        _ => None,
    }
}

/// The order of bits that the text at a key names, or `None` if it names none.
pub fn order_at(table: &Table, key: Key) -> Option<BitOrder>
    ensures { result ≡ tables.order_at (table_view table.now) key }
{
    match string_at(table, key) {
        Some(text) => order_named(text),
        None => Some(BitOrder::MsbFirst),
    }
}

fn order_named(text: &str) -> Option<BitOrder>
    ensures { result ≡ tables.order_named text.now }
{
    match text {
        "msb_first" => Some(BitOrder::MsbFirst),
        "lsb_first" => Some(BitOrder::LsbFirst),
        _ => None,
    }
}

/// The tag policy that a text names.
pub fn policy_named(text: &str) -> Option<Policy>
    ensures { result ≡ tables.policy_named text.now }
{
    match text {
        "all" => Some(Policy::All),
        "none" => Some(Policy::None),
        "one" => Some(Policy::One),
        _ => None,
    }
}

/// What is wrong at a key.
pub fn key_fault(table: &Table, key: Key) -> Option<KeyFault>
    ensures { result ≡ tables.key_fault (table_view table.now) key }
{
    match value_at(table, key) {
        None if key.is_needed() => Some(KeyFault::MissingKey(key)),
        Some(value) if !fits(key.form(), value) => Some(KeyFault::WrongType(key)),
        _ => None,
    }
}

/// What is wrong at the first of these keys that is not right.
pub fn keys_fault(table: &Table, keys: &[Key]) -> Option<KeyFault>
    ensures { result ≡ tables.keys_fault (table_view table.now) keys.now }
{
    for key in keys {
        if let Some(fault) = key_fault(table, *key) {
            return Some(fault);
        }
    }
    None
}

/// Whether a table has no other keys than these.
pub fn has_only(table: &Table, keys: &[Key]) -> bool
    ensures { result ≡ tables.has_only keys.now (table_view table.now) }
{
    are_known(table, keys)
}

fn are_known(table: &Table, keys: &[Key]) -> bool
    ensures { result ≡ list_all (λ text. tables.is_known keys.now (string_bytes text)) (tree.keys table.now) }
{
    table.keys().all(|text| is_known(keys, text.as_bytes()))
}

fn is_known(keys: &[Key], text: &[u8]) -> bool
    ensures { result ≡ tables.is_known keys.now text.now }
{
    keys.iter().any(|key| text == key.text().as_bytes())
}

// Whether a value has the form.
fn fits(form: ValueForm, value: &Value) -> bool
    ensures { result ≡ tables.fits form (view value.now) }
{
    match form {
        ValueForm::Text => value.is_str(),
        ValueForm::Number => value.is_integer(),
        ValueForm::Numbers => match value.as_array() {
            Some(values) => are_numbers(values),
            None => false,
        },
        ValueForm::Tables => match value.as_array() {
            Some(values) => are_tables(values),
            None => false,
        },
        ValueForm::Choice => match value.as_str() {
            Some(text) => policy_named(text).is_some(),
            None => false,
        },
    }
}

fn are_numbers(values: &[Value]) -> bool
    ensures { result ≡ tables.each_item tables.is_number (items_view values.now) }
{
    for value in values {
        if !value.is_integer() {
            return false;
        }
    }
    true
}

fn are_tables(values: &[Value]) -> bool
    ensures { result ≡ tables.each_item tables.is_table (items_view values.now) }
{
    for value in values {
        if !value.is_table() {
            return false;
        }
    }
    true
}
