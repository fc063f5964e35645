//! The blocks of a graph file.
ghost use Rattle.std.specs.Prelude.{◌≡◌, [], map, Ok, IfOk, OnOk, IfErr, IsErrOf};
ghost use Rattle.toml.specs.Data.{as_table};
ghost use Rattle.toml.specs.View.{view, table_view, items_view};
ghost use Rattle.kind_schema.specs.Tables.{at_key, string_in};
ghost use Rattle.kind_schema.specs.declared.key.Key.TheVariants as keys;
ghost use Rattle.graph_file.specs.Refusals.{IsRefused};
ghost use Rattle.graph_file.specs.Steps.{steps, step_in, StepsTake, TakesIn};
ghost use Rattle.kinds.specs.Kind.{meaning_of};
ghost use Rattle.graph_file.specs.Blocks.{drafted, block_step, meaning_step, policy_in, BlockTakes};

use crate::fault::{FileFault, FilePlace, graph_fault, table_fault};
use flowgraph::{Graph, Options, Policy};
use kind_schema::table::{policy_named, small_at, string_at, text_at};
use kind_schema::{Key, read_kind};
use kinds::Kind;
use std::alloc::Global;
use toml::{Table, Value};

/// The blocks of an array of tables, in their order.
pub(crate) fn blocks_of(alloc: Global, values: &[Value]) -> Result<Vec<Kind>, FileFault>
    ensures ok { IfOk result (λ blocks. steps meaning_step 0 [] (items_view values.now)
        ≡ Ok (map meaning_of blocks.items)) }
    ensures refused { IfErr result (IsRefused (steps meaning_step 0 [] (items_view values.now))) }
{
    let mut blocks = Vec::new(alloc);
    for (number, value) in values.iter().enumerate() {
        if let Err(fault) = push_value(alloc, &mut blocks, number, value) {
            return Err(fault);
        }
    }
    Ok(blocks)
}

// Adds the block of a value of the array. What is no table was refused before.
fn push_value(
    alloc: Global,
    blocks: &mut Vec<Kind>,
    number: usize,
    value: &Value,
) -> Result<(), FileFault>
    ensures ok { OnOk result (step_in meaning_step number (map meaning_of blocks.old.items) (as_table (view value.now))
        ≡ Ok (map meaning_of blocks.new.items)) }
    ensures refused { IfErr result (IsRefused (step_in meaning_step number (map meaning_of blocks.old.items)
        (as_table (view value.now)))) }
{
    let Some(table) = value.as_table() else {
        return Ok(());
    };
    match read_kind(alloc, table) {
        Ok(block) => Ok(blocks.push(block)?),
        Err(fault) => Err(table_fault(FilePlace::Block(number), fault)),
    }
}

/// Adds the blocks of an array of tables.
pub(crate) fn add_blocks(
    alloc: Global,
    graph: &mut Graph<Kind>,
    values: &[Value],
) -> Result<(), FileFault>
    ensures ok { OnOk result (steps block_step 0 (drafted graph.old) (items_view values.now) ≡ Ok (drafted graph.new)) }
    ensures refused { IfErr result (IsRefused (steps block_step 0 (drafted graph.old) (items_view values.now))) }
    ensures memory { IsErrOf result FileFault.Memory → StepsTake block_step BlockTakes 0 (drafted graph.old)
        (items_view values.now) }
{
    for (number, value) in values.iter().enumerate() {
        if let Err(fault) = add_value(alloc, graph, number, value) {
            return Err(fault);
        }
    }
    Ok(())
}

// Adds the block of a value of the array. What is no table was refused before.
fn add_value(
    alloc: Global,
    graph: &mut Graph<Kind>,
    number: usize,
    value: &Value,
) -> Result<(), FileFault>
    ensures ok { OnOk result (step_in block_step number (drafted graph.old) (as_table (view value.now))
        ≡ Ok (drafted graph.new)) }
    ensures refused { IfErr result (IsRefused (step_in block_step number (drafted graph.old)
        (as_table (view value.now)))) }
    ensures memory { IsErrOf result FileFault.Memory → TakesIn BlockTakes number (drafted graph.old)
        (as_table (view value.now)) }
{
    match value.as_table() {
        Some(table) => add_block(alloc, graph, number, table),
        None => Ok(()),
    }
}

// Adds the block of a table.
fn add_block(
    alloc: Global,
    graph: &mut Graph<Kind>,
    number: usize,
    table: &Table,
) -> Result<(), FileFault>
    ensures ok { OnOk result (block_step number (drafted graph.old) (table_view table.now) ≡ Ok (drafted graph.new)) }
    ensures refused { IfErr result (IsRefused (block_step number (drafted graph.old) (table_view table.now))) }
    ensures memory { IsErrOf result FileFault.Memory → BlockTakes number (drafted graph.old) (table_view table.now) }
{
    let place = FilePlace::Block(number);
    let block = match read_kind(alloc, table) {
        Ok(block) => block,
        Err(fault) => return Err(table_fault(place, fault)),
    };
    let name = text_at(table, Key::Name);
    let options = Options {
        policy: policy_at(table),
        multiple: small_at(table, Key::Multiple),
        capacity: small_at(table, Key::Capacity),
    };
    match graph.add_block(alloc, name.as_bytes(), block, options) {
        Ok(_) => Ok(()),
        Err(fault) => Err(graph_fault(place, fault, name)),
    }
}

// Which tags pass the block of a table.
fn policy_at(table: &Table) -> Policy
    ensures { result ≡ policy_in (string_in (at_key keys.Tags (table_view table.now))) }
{
    match string_at(table, Key::Tags) {
        Some(text) => match policy_named(text) {
            Some(policy) => policy,
            None => Policy::All,
        },
        None => Policy::All,
    }
}
