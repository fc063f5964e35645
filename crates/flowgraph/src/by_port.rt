//! The connections of a graph by the ports at their ends.
ghost use Rattle.std.specs.Prelude.{◌≡◌, ◌<◌, ◌≤◌, ◌++◌, ◌∷◌, [], length, map, set, slice_index_or, replicate, All, IfOk, OnOk};
ghost use Rattle.flowgraph.specs.Flowgraph.{connection_of};
ghost use Rattle.flowgraph.specs.Ports.{AreWithin, net_from};
ghost use Rattle.flowgraph.specs.Tables.{AreByPort};
ghost use Rattle.flowgraph.specs.Wiring.{IsItsReader};

use crate::fault::Side;
use crate::parts::{Connection, Input};
use crate::ports::{MOST_PORTS, end_of};
use std::alloc::{AllocError, Global};

/// For each port that a side of a block may have, 16 a block, the connections that end there, in the order of
/// connecting.
#[derive(Drop)]
pub struct ByPort {
    // By output ports.
    pub readers: Vec<Vec<Connection>>,
    // By input ports.
    pub inputs: Vec<Vec<Input>>,
}

/// The connections by the ports at their ends. It goes through the connections once.
pub fn by_port(
    alloc: Global,
    blocks: usize,
    connections: &[Connection],
) -> Result<ByPort, AllocError>
    requires few { blocks ≤ 256 }
    requires within { AreWithin blocks connections.now }
    ensures readers { IfOk result (λ all. AreByPort blocks Side.Out connections.now
        (map (λ row. row.items) all.readers.items)) }
    ensures inputs { IfOk result (λ all. AreByPort blocks Side.In connections.now
        (map (map (λ i. i.connection)) (map (λ row. row.items) all.inputs.items))) }
    ensures known { IfOk result (λ all. All (All (IsItsReader (net_from connections.now)))
        (map (λ row. row.items) all.inputs.items)) }
{
    let mut readers: Vec<Vec<Connection>> = empty_rows(alloc, MOST_PORTS * blocks)?;
    let mut inputs: Vec<Vec<Input>> = empty_rows(alloc, MOST_PORTS * blocks)?;
    for connection in connections {
        let (from, out_port) = end_of(connection, Side::Out);
        let (to, in_port) = end_of(connection, Side::In);
        let output = MOST_PORTS * from + out_port;
        let reader = readers[output].len();
        let input = Input {
            connection: *connection,
            reader,
        };
        push_at(&mut readers, output, *connection)?;
        push_at(&mut inputs, MOST_PORTS * to + in_port, input)?;
    }
    Ok(ByPort { readers, inputs })
}

/// So many rows of nothing.
pub fn empty_rows<T: Drop>(alloc: Global, count: usize) -> Result<Vec<Vec<T>>, AllocError>
    ensures { IfOk result (λ rows. map (λ row. row.items) rows.items ≡ replicate count []) }
{
    let mut rows = Vec::with_capacity(alloc, count)?;
    for _ in 0..count {
        rows.push(Vec::new(alloc))?;
    }
    Ok(rows)
}

/// Adds an item behind a row.
pub fn push_at<T: Drop>(rows: &mut [Vec<T>], at: usize, item: T) -> Result<(), AllocError>
    requires { at < length rows.old }
    ensures { OnOk result (map (λ row. row.items) rows.new
        ≡ set (map (λ row. row.items) rows.old) at (slice_index_or (map (λ row. row.items) rows.old) at []
        ++ item ∷ [])) }
{
    rows[at].push(item)?;
    Ok(())
}
