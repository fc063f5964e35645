//! How many items the buffers of a graph have room for.

ghost use Rattle.std.specs.Prelude.{◌≡◌, IfOk, map};
ghost use Rattle.rates.specs.Answer.{sizes_of};
ghost use Rattle.magbelu_c.specs.Rooms.{Rooms, room_on, rooms_of};

use crate::reply::{Reply, done, no_memory};
use crate::shows::show;
use flowgraph::{Connection, Valid};
use kinds::Kind;
use rates::{BufferCapacities, balance, capacities};
use std::alloc::{AllocError, Global};

/// Puts the rooms of the connections' buffers at the front of a table if they fit, and tells how many there are.
pub(crate) fn show_rooms(alloc: Global, graph: &Valid<Kind>, rooms: &mut [u64]) -> Reply
    ensures { Rooms graph.now rooms.old rooms.new result }
{
    let Ok(rows) = rooms_of(alloc, graph) else {
        return no_memory();
    };
    show(&rows, rooms);
    done(0, rows.len() as u64)
}

// A room for each connection.
fn rooms_of(alloc: Global, graph: &Valid<Kind>) -> Result<Vec<u64>, AllocError>
    ensures { IfOk result (λ rooms. rooms.items ≡ rooms_of graph.now) }
{
    let rates = balance(alloc, graph)?;
    let sizes = capacities(alloc, graph, &rates)?;
    rooms_in(alloc, &sizes, graph.connections())
}

// The same, if the outputs have these capacities.
fn rooms_in(
    alloc: Global,
    sizes: &BufferCapacities,
    connections: &[Connection],
) -> Result<Vec<u64>, AllocError>
    ensures { IfOk result (λ rooms. rooms.items ≡ map (room_on (sizes_of sizes.now)) connections.now) }
{
    let mut rooms = Vec::with_capacity(alloc, connections.len())?;
    for connection in connections {
        rooms.push(room_on(sizes, *connection))?;
    }
    Ok(rooms)
}

// The capacity of the output that a connection comes from.
fn room_on(sizes: &BufferCapacities, connection: Connection) -> u64
    ensures { result ≡ room_on (sizes_of sizes.now) connection }
{
    match sizes.rows().get(connection.from.0 as usize) {
        Some(outputs) => match outputs.get(connection.out_port) {
            Some(capacity) => u64::from(*capacity),
            None => 0,
        },
        None => 0,
    }
}
