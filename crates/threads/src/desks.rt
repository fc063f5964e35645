//! The threads of callers, each at a desk of its own.

ghost use Rattle.std.specs.Prelude.{◌≡◌, ◌≤◌, map, vec_len, IfOk, IfSome};
ghost use Rattle.call_history.specs.Desk.{opened_at};
ghost use Rattle.threads.specs.Desks.{AreSeated, HaveKept, IsEmpty};
ghost use Rattle.call_history.specs.History.{noted_by};

use crate::desk::{Caller, Desk};
use crate::shared::Shared;
use call_history::Entry;
use flowgraph::{Block, Valid};
use scheduling::Gate;
use std::alloc::{AllocError, Global};
use std::snapshot::Snapshot;
use std::sync::Wait;
use std::thread::{Promise, PromisedHandle, Scope, Threads};

/// What callers left.
#[derive(Drop)]
pub struct Returned<C: Drop> {
    /// The callers.
    pub callers: Vec<C>,
    /// For each of them the log of its desk.
    pub logs: Vec<Vec<Entry>>,
}

/// A caller at the desk of this number, of a plant of this graph. Its thread returns what the run makes of the caller,
/// and the desk's log.
#[derive(Drop)]
pub struct DeskPromise<B: Block, C> {
    graph: Snapshot<Valid<B>>,
    number: u32,
    caller: Snapshot<C>,
}

impl<B: Block, C: Caller<B>> Promise<(C, Vec<Entry>)> for DeskPromise<B, C> {
    ghost kept_by = { λ p r. C.ran p.caller.value r.0 (opened_at p.graph.value p.number) (map noted_by r.1.items) };
}

/// The thread of a caller.
pub type Handle<B, C> = PromisedHandle<(C, Vec<Entry>), DeskPromise<B, C>>;

/// Room for what callers leave, and for the handles of their threads. It is made before a thread is started, so none
/// runs if memory lacks.
#[derive(Drop)]
pub struct Room<B: Block, C: Caller<B> + Drop> {
    pub callers: Vec<C>,
    pub logs: Vec<Vec<Entry>>,
    pub desks: Vec<Handle<B, C>>,
}

impl<B: Block, C: Caller<B> + Drop + Send> Room<B, C> {
    /// Room for so many callers.
    pub fn with_capacity(alloc: Global, callers: usize) -> Result<Room<B, C>, AllocError>
        ensures { IfOk result IsEmpty }
    {
        Ok(Room {
            callers: Vec::with_capacity(alloc, callers)?,
            logs: Vec::with_capacity(alloc, callers)?,
            desks: Vec::with_capacity(alloc, callers)?,
        })
    }
}

/// Starts a thread for each caller. `None` if one cannot be started; the others go on.
pub fn seated<
    's,
    'r: 's,
    'h: 's,
    E,
    B: Block + Send + Sync + 's + 'h,
    G: Gate + Drop + Send + Sync + 's + 'h,
    C: Caller<B> + Drop + Send + 's,
    R: Threads + Wait + Sync + 's + 'r,
>(
    rt: &'r R,
    alloc: Global,
    scope: &Scope<'s, E>,
    shared: &'h Shared<B, G>,
    graph: &'h Valid<B>,
    callers: Vec<C>,
    mut desks: Vec<Handle<B, C>>,
) -> Option<Vec<Handle<B, C>>>
where
    B::Places: Send + Sync,
    requires few { vec_len callers ≤ 16 }
    requires empty { vec_len desks ≡ 0 }
    ensures len { IfSome result (λ desks. vec_len desks ≡ vec_len callers) }
    ensures seated { IfSome result (λ desks. AreSeated graph.now callers.items desks.items) }
{
    let mut number = 0u32;
    for caller in callers {
        let promise = DeskPromise {
            graph: Snapshot::of(graph),
            number,
            caller: Snapshot::of(&caller),
        };
        let desk = scope.spawn_with(promise, move || {
            at_desk(rt, alloc, shared, graph, number, caller)
        });
        desks.push(desk.ok()?).ok()?;
        number += 1;
    }
    Some(desks)
}

/// Waits for the threads of callers, and returns what they return.
pub fn return_callers<B: Block, C: Caller<B> + Drop, R: Threads>(
    rt: &R,
    desks: Vec<Handle<B, C>>,
    mut callers: Vec<C>,
    mut logs: Vec<Vec<Entry>>,
) -> Option<Returned<C>>
    requires callers { vec_len callers ≡ 0 }
    requires logs { vec_len logs ≡ 0 }
    ensures kept { IfSome result (λ came. HaveKept C.ran desks.items came.callers.items
        (map (λ l. map noted_by l.items) came.logs.items)) }
    ensures callers { IfSome result (λ came. vec_len came.callers ≡ vec_len desks) }
    ensures logs { IfSome result (λ came. vec_len came.logs ≡ vec_len desks) }
{
    for desk in desks {
        let (caller, log) = desk.join(rt);
        callers.push(caller).ok()?;
        logs.push(log).ok()?;
    }
    Some(Returned { callers, logs })
}

// A caller's run at its desk: the caller, and the log of the desk.
fn at_desk<B: Block, G: Gate + Drop, C: Caller<B>, R: Wait>(
    rt: &R,
    alloc: Global,
    shared: &Shared<B, G>,
    graph: &Valid<B>,
    number: u32,
    mut caller: C,
) -> (C, Vec<Entry>)
    ensures { C.ran caller result.0 (opened_at graph.now number) (map noted_by result.1.items) }
{
    let mut desk = Desk::new(alloc, shared, graph, number);
    caller.run(rt, alloc, &mut desk);
    let log = desk.into_log();
    shared.caller_leaves(rt);
    (caller, log)
}
