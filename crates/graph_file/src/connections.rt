//! The connections of a graph file.
ghost use Rattle.std.specs.Prelude.{◌≡◌, Ok, IsOk, OnOk, IfErr, IsErrOf, option_map};
ghost use Rattle.toml.specs.Data.{as_table};
ghost use Rattle.toml.specs.View.{view, table_view, items_view};
ghost use Rattle.graph_file.specs.Refusals.{IsRefused};
ghost use Rattle.graph_file.specs.Steps.{steps, step_in, StepsTake, TakesIn};
ghost use Rattle.graph_file.specs.Blocks.{drafted};
ghost use Rattle.graph_file.specs.Connections.{connect_step, joined, number_from, name_in, end_named, ConnectTakes};

use crate::fault::{FileFault, FilePlace, graph_fault, port_fault, table_fault};
use crate::only::only_fault;
use flowgraph::{BlockId, Graph, GraphFault, Side};
use kind_schema::Key;
use kind_schema::table::{count_at, keys_fault, number_at, text_at};
use kinds::Kind;
use toml::{Table, Value};

/// Makes the connections of an array of tables between the blocks of another.
pub(crate) fn add_connections(
    graph: &mut Graph<Kind>,
    blocks: &[Value],
    values: &[Value],
) -> Result<(), FileFault>
    ensures ok { OnOk result (steps (connect_step (items_view blocks.now)) 0 (drafted graph.old) (items_view values.now)
        ≡ Ok (drafted graph.new)) }
    ensures refused { IfErr result (IsRefused (steps (connect_step (items_view blocks.now)) 0 (drafted graph.old)
        (items_view values.now))) }
    ensures memory { IsErrOf result FileFault.Memory → StepsTake (connect_step (items_view blocks.now))
        (ConnectTakes (items_view blocks.now)) 0 (drafted graph.old) (items_view values.now) }
{
    for (number, value) in values.iter().enumerate() {
        if let Err(fault) = connect_value(graph, blocks, number, value) {
            return Err(fault);
        }
    }
    Ok(())
}

// Makes the connection of a value of the array. What is no table was refused before.
fn connect_value(
    graph: &mut Graph<Kind>,
    blocks: &[Value],
    number: usize,
    value: &Value,
) -> Result<(), FileFault>
    ensures ok { OnOk result (step_in (connect_step (items_view blocks.now)) number (drafted graph.old)
        (as_table (view value.now)) ≡ Ok (drafted graph.new)) }
    ensures refused { IfErr result (IsRefused (step_in (connect_step (items_view blocks.now)) number (drafted graph.old)
        (as_table (view value.now)))) }
    ensures memory { IsErrOf result FileFault.Memory → TakesIn (ConnectTakes (items_view blocks.now)) number
        (drafted graph.old) (as_table (view value.now)) }
{
    match value.as_table() {
        Some(table) => connect(graph, blocks, number, table),
        None => Ok(()),
    }
}

// Makes the connection of a table.
fn connect(
    graph: &mut Graph<Kind>,
    blocks: &[Value],
    number: usize,
    table: &Table,
) -> Result<(), FileFault>
    ensures ok { OnOk result (connect_step (items_view blocks.now) number (drafted graph.old) (table_view table.now)
        ≡ Ok (drafted graph.new)) }
    ensures refused { IfErr result (IsRefused (connect_step (items_view blocks.now) number (drafted graph.old)
        (table_view table.now))) }
    ensures memory { IsErrOf result FileFault.Memory → ConnectTakes (items_view blocks.now) number (drafted graph.old)
        (table_view table.now) }
{
    let place = FilePlace::Connect(number);
    let known = [Key::From, Key::To, Key::FromPort, Key::ToPort];
    if let Some(fault) = only_fault(table, &known, &[Key::From, Key::To, Key::FromPort]) {
        return Err(table_fault(place, fault));
    }
    let (from, to) = (text_at(table, Key::From), text_at(table, Key::To));
    let out_port = number_at(table, Key::FromPort);
    if out_port < 0 {
        return Err(port_fault(place, from, Side::Out, out_port));
    }
    if let Some(fault) = keys_fault(table, &[Key::ToPort]) {
        return Err(table_fault(place, fault));
    }
    let in_port = number_at(table, Key::ToPort);
    if in_port < 0 {
        return Err(port_fault(place, to, Side::In, in_port));
    }
    let (Some(from), Some(to)) = (block_named(blocks, from), block_named(blocks, to)) else {
        return Err(graph_fault(place, GraphFault::UnknownBlock, ""));
    };
    join(graph, number, table, from, to)
}

// Connects two blocks by the ports of a table.
fn join(
    graph: &mut Graph<Kind>,
    number: usize,
    table: &Table,
    from: u32,
    to: u32,
) -> Result<(), FileFault>
    ensures ok { OnOk result (joined number (drafted graph.old) (table_view table.now) from to
        ≡ Ok (drafted graph.new)) }
    ensures refused { IfErr result (IsRefused (joined number (drafted graph.old) (table_view table.now) from to)) }
    ensures memory { IsErrOf result FileFault.Memory → IsOk (joined number (drafted graph.old) (table_view table.now)
        from to) }
{
    let out_port = count_at(table, Key::FromPort) as usize;
    let in_port = count_at(table, Key::ToPort) as usize;
    match graph.connect(BlockId(from), out_port, BlockId(to), in_port) {
        Ok(()) => Ok(()),
        Err(fault) => {
            let name = end_named(table, fault);
            Err(graph_fault(FilePlace::Connect(number), fault, name))
        }
    }
}

// The name of the block that a refused connection names.
fn end_named<'a>(table: &'a Table, fault: GraphFault) -> &'a str
    ensures { result.now ≡ end_named (table_view table.now) fault }
{
    match fault {
        GraphFault::PortRange {
            side: Side::Out,
            ..
        } => text_at(table, Key::From),
        _ => text_at(table, Key::To),
    }
}

// The number of the first block of a name.
fn block_named(blocks: &[Value], name: &str) -> Option<u32>
    ensures { result ≡ number_from 0 name.now (items_view blocks.now) }
{
    for (number, value) in blocks.iter().enumerate() {
        if name_of(value).as_bytes() == name.as_bytes() {
            return Some(number.min(u32::MAX as usize) as u32);
        }
    }
    None
}

// The name in the table of a block.
fn name_of(value: &Value) -> &str
    ensures { result.now ≡ name_in (as_table (view value.now)) }
{
    match value.as_table() {
        Some(table) => text_at(table, Key::Name),
        None => "",
    }
}
