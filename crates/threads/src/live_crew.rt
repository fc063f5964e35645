//! The threads of a run with callers: those that act for the blocks, and one for each caller.

ghost use Rattle.std.specs.Prelude.{◌≡◌, ◌≤◌, map, IfSome, vec_len};
ghost use Rattle.threads.specs.Desks.{IsEmpty};
ghost use Rattle.call_history.specs.History.{noted_by};
ghost use Rattle.threads.specs.Live.{HaveReturned};

use crate::desk::Caller;
use crate::desks::{Returned, Room, return_callers, seated};
use crate::pool_threads::lead_in_scope;
use crate::shared::Shared;
use crate::worker::work;
use flowgraph::{Block, BlockId, Valid};
use plant::Watch;
use scheduling::{Gate, Threading};
use std::alloc::Global;
use std::sync::Wait;
use std::thread::{Scope, Threads};
use std::time::Clock;

/// Starts a thread for each caller, and a worker for each block or a pool that this thread leads until the run ends.
/// Then it waits for the callers. `None` if a thread cannot be started; the others go on.
pub fn run_all<
    's,
    'r: 's,
    'h: 's,
    E,
    B: Block + Send + Sync + 's + 'h,
    G: Gate + Drop + Send + Sync + 's + 'h,
    C: Caller<B> + Drop + Send + 's,
    R: Threads + Wait + Clock + Sync + 's + 'r,
    W: Watch,
>(
    rt: &'r R,
    alloc: Global,
    scope: &Scope<'s, E>,
    shared: &'h Shared<B, G>,
    graph: &'h Valid<B>,
    callers: Vec<C>,
    room: Room<B, C>,
    threading: Threading,
    watch: &mut W,
) -> Option<Returned<C>>
where
    B::Places: Send + Sync,
    requires few { vec_len callers ≤ 16 }
    requires empty { IsEmpty room }
    ensures ran { IfSome result (λ came. HaveReturned C.ran graph.now callers.items came.callers.items
        (map (λ l. map noted_by l.items) came.logs.items)) }
    ensures callers { IfSome result (λ came. vec_len came.callers ≡ vec_len callers) }
    ensures logs { IfSome result (λ came. vec_len came.logs ≡ vec_len callers) }
{
    let Room {
        callers: back,
        logs,
        desks,
    } = room;
    if threading == Threading::PerBlock {
        start_workers(rt, alloc, scope, shared)?;
    }
    let desks = seated(rt, alloc, scope, shared, graph, callers, desks)?;
    if threading == Threading::Adaptive {
        lead_in_scope(rt, alloc, scope, shared, watch);
    }
    return_callers(rt, desks, back, logs)
}

// Starts a worker for each block.
fn start_workers<
    's,
    'r: 's,
    'h: 's,
    E,
    B: Block + Send + Sync + 's + 'h,
    G: Gate + Drop + Send + Sync + 's + 'h,
    R: Threads + Wait + Sync + 's + 'r,
>(rt: &'r R, alloc: Global, scope: &Scope<'s, E>, shared: &'h Shared<B, G>) -> Option<()>
where
    B::Places: Send + Sync,
{
    for (block, _parker) in (0..u32::MAX).zip(&shared.parkers) {
        let block = BlockId(block);
        scope.spawn(move || work(rt, alloc, shared, block)).ok()?;
    }
    Some(())
}
