//! Reads the block that a table of a graph file describes.
ghost use Rattle.std.specs.Prelude.{◌≡◌, Ok, IfOk, IfErr};
ghost use Rattle.toml.specs.View.{table_view};
ghost use Rattle.kinds.specs.Kind.{meaning_of};
ghost use Rattle.kind_schema.specs.Reading.{block_in, tested, takes_memory, IsRefused};

use crate::fault::KeyFault;
use crate::key::Key;
use crate::keys::keys_of;
use crate::make::make;
use crate::table::{has_only, key_fault, keys_fault, text_at};
use kinds::{Kind, KindName};
use std::alloc::Global;
use toml::Table;

/// The block that a table describes, or the first fault of the table. It tests the name and the kind, then for keys
/// that the kind does not have, then each key in the kind's order, then the values of the parameters.
pub fn read_kind(alloc: Global, table: &Table) -> Result<Kind, KeyFault>
    ensures ok { IfOk result (λ block. block_in (table_view table.now) ≡ Ok (meaning_of block)) }
    ensures refused { IfErr result (IsRefused (takes_memory (table_view table.now)) (block_in (table_view table.now))) }
{
    let kind = match tested(table) {
        Ok(kind) => kind,
        Err(fault) => return Err(fault),
    };
    match make(alloc, kind, table) {
        Ok(block) => Ok(block),
        Err(fault) => Err(KeyFault::from(fault)),
    }
}

// The kind of a block, if all its keys are right.
fn tested(table: &Table) -> Result<KindName, KeyFault>
    ensures { result ≡ tested (table_view table.now) }
{
    if let Some(fault) = key_fault(table, Key::Name) {
        return Err(fault);
    }
    if let Some(fault) = key_fault(table, Key::Kind) {
        return Err(fault);
    }
    let Some(kind) = KindName::named(text_at(table, Key::Kind)) else {
        return Err(KeyFault::UnknownKind);
    };
    let keys = keys_of(kind);
    if !has_only(table, &keys) {
        return Err(KeyFault::UnknownKey);
    }
    match keys_fault(table, &keys) {
        Some(fault) => Err(fault),
        None => Ok(kind),
    }
}
