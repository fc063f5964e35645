//! Runs in threads, with callers that make calls of the plant.

ghost use Rattle.std.specs.Prelude.{◌≡◌, ◌≤◌, map, true, not, Some, IfOk, IfErr, IfSome, vec_len};
ghost use Rattle.std.specs.Option.{is_some};
ghost use Rattle.stream_model.specs.Machine.{is_idle};
ghost use Rattle.threads.specs.Desks.{IsEmpty};
ghost use Rattle.call_history.specs.History.{noted_by};
ghost use Rattle.call_history.specs.Logs.{AreLogs};
ghost use Rattle.threads.specs.Live.{HaveReturned, LiveRunEndsIn, GivesBackLive};
ghost use Rattle.call_history.specs.Reached.{opening_of};
ghost use Rattle.threads.specs.Outcomes.{IsAsAsked, IsSo};

use crate::desk::Caller;
use crate::desks::{Returned, Room};
use crate::fault::RunFault;
use crate::live_crew::run_all;
use crate::live_rooms::{LiveRooms, prepare};
use crate::locked::Locked;
use crate::outcome::Outcome;
use crate::shared::Shared;
use call_history::{Engine, Entry, are_logs};
use flowgraph::{Block, Valid};
use plant::{Opening, Plant, Unwatched, Watch};
use scheduling::crew::Crew;
use scheduling::{Gate, RunOptions, Threading, Turns};
use std::alloc::Global;
use std::sync::{Arc, Wait};
use std::thread;
use std::thread::Threads;
use std::time::Clock;

/// How a run with callers ended.
#[derive(Debug, Drop)]
pub struct Finished<B: Block, C: Drop> {
    /// How it ended, with the plant.
    pub outcome: Outcome<B>,
    /// In one order: each claim that handed out firings or found its block done, each commit, and each call of a caller
    /// that did not run out of memory.
    pub history: Vec<Entry>,
    /// For each caller the entries of its calls, in their order.
    pub logs: Vec<Vec<Entry>>,
    /// The callers, in the order in which they were handed in.
    pub callers: Vec<C>,
    /// How many firings a worker claimed at most in one turn.
    pub turns: Turns,
}

/// Starts a worker for each block of a plant that has no claim in flight, and a thread for each of at most 16 callers,
/// with a desk of its own, and waits for all of them. Once all callers have returned, the workers go on until all
/// blocks are done or none can act. If a caller asks for a stop, they leave after their commits. The history takes
/// memory for each entry. Fails as `Running::wait` does, and with `RunFault::Thread`.
pub fn live<
    B: Block + Send + Sync,
    G: Gate + Drop + Send + Sync,
    C: Caller<B> + Drop + Send,
    R: Threads + Wait + Clock + Sync,
>(
    rt: &R,
    alloc: Global,
    plant: Plant<B>,
    gate: Arc<G, Global>,
    callers: Vec<C>,
    turns: Turns,
) -> Result<Finished<B, C>, RunFault<B>>
where
    B::Places: Send + Sync,
    requires idle { is_idle plant.state ≡ true }
    requires few { vec_len callers ≤ 16 }
    ensures ends { IfOk result (λ f. LiveRunEndsIn B.meaning B.eq (opening_of plant) (map noted_by f.history.items)
        f.outcome) }
    ensures logs { IfOk result (λ f. AreLogs (map (λ l. map noted_by l.items) f.logs.items)
        (map noted_by f.history.items)) }
    ensures callers { IfOk result (λ f. vec_len f.callers ≡ vec_len callers) }
    ensures logged { IfOk result (λ f. vec_len f.logs ≡ vec_len callers) }
    ensures ran { IfOk result (λ f. HaveReturned C.ran plant.graph callers.items f.callers.items
        (map (λ l. map noted_by l.items) f.logs.items)) }
    ensures turns { IfOk result (λ f. f.turns ≡ turns) }
    ensures err { IfErr result (GivesBackLive B.meaning B.eq (opening_of plant)) }
{
    let options = RunOptions {
        threading: Threading::PerBlock,
        turns,
        gate: Some(gate),
    };
    live_with(rt, alloc, plant, callers, options, &mut Unwatched)
}

/// Like `live`, as these options say: with a worker for each block, or in as many threads as the work is worth. The
/// latter begins on the caller's own thread. Once the work of several blocks is worth it, it takes up to one thread a
/// processor. Each caller has a thread of its own beside them. A step is recorded as its claim and its commit. Once all
/// callers have returned it calls `watch.show` after each pause until the run ends, and then `watch.end`. Fails as
/// `live` does. In as many threads as the work is worth, `RunFault::Thread` comes only if the thread of a caller could
/// not be started.
pub fn live_with<
    B: Block + Send + Sync,
    G: Gate + Drop + Send + Sync,
    C: Caller<B> + Drop + Send,
    R: Threads + Wait + Clock + Sync,
    W: Watch,
>(
    rt: &R,
    alloc: Global,
    plant: Plant<B>,
    callers: Vec<C>,
    options: RunOptions<G>,
    watch: &mut W,
) -> Result<Finished<B, C>, RunFault<B>>
where
    B::Places: Send + Sync,
    requires idle { is_idle plant.state ≡ true }
    requires few { vec_len callers ≤ 16 }
    ensures ends { IfOk result (λ f. LiveRunEndsIn B.meaning B.eq (opening_of plant) (map noted_by f.history.items)
        f.outcome) }
    ensures logs { IfOk result (λ f. AreLogs (map (λ l. map noted_by l.items) f.logs.items)
        (map noted_by f.history.items)) }
    ensures callers { IfOk result (λ f. vec_len f.callers ≡ vec_len callers) }
    ensures logged { IfOk result (λ f. vec_len f.logs ≡ vec_len callers) }
    ensures ran { IfOk result (λ f. HaveReturned C.ran plant.graph callers.items f.callers.items
        (map (λ l. map noted_by l.items) f.logs.items)) }
    ensures turns { IfOk result (λ f. f.turns ≡ options.turns) }
    ensures err { IfErr result (GivesBackLive B.meaning B.eq (opening_of plant)) }
{
    let RunOptions {
        threading,
        turns,
        gate,
    } = options;
    let crew = Crew::new(threading);
    let (locked, rooms) = prepare(alloc, plant, callers.len(), turns, crew)?;
    let LiveRooms {
        opening,
        graph,
        parkers,
        room,
    } = rooms;
    let shared = Shared::new(locked, parkers, gate, turns);
    let came = in_scope(rt, alloc, &shared, &graph, callers, room, threading, watch);
    let Shared { locked, turns, .. } = shared;
    ended(locked.into_inner(), &opening, came, turns)
}

// Runs all threads and returns once they have ended: with what the callers left, if each thread could be started.
fn in_scope<
    B: Block + Send + Sync,
    G: Gate + Drop + Send + Sync,
    C: Caller<B> + Drop + Send,
    R: Threads + Wait + Clock + Sync,
    W: Watch,
>(
    rt: &R,
    alloc: Global,
    shared: &Shared<B, G>,
    graph: &Valid<B>,
    callers: Vec<C>,
    room: Room<B, C>,
    threading: Threading,
    watch: &mut W,
) -> Option<Returned<C>>
where
    B::Places: Send + Sync,
    requires few { vec_len callers ≤ 16 }
    requires empty { IsEmpty room }
    ensures ran { IfSome result (λ came. HaveReturned C.ran graph.now callers.items came.callers.items
        (map (λ l. map noted_by l.items) came.logs.items)) }
    ensures callers { IfSome result (λ came. vec_len came.callers ≡ vec_len callers) }
    ensures logs { IfSome result (λ came. vec_len came.logs ≡ vec_len callers) }
{
    thread::scope(
        thread::scope_env(),
        rt,
        move |scope| -> Option<Returned<C>>
            requires { (vec_len callers ≤ 16) × IsEmpty room }
            ensures ran { IfSome result (λ came. HaveReturned C.ran graph.entry.now callers.items came.callers.items
                (map (λ l. map noted_by l.items) came.logs.items)) }
            ensures many { IfSome result (λ came. (vec_len came.callers ≡ vec_len callers)
                × (vec_len came.logs ≡ vec_len callers)) }
        {
            let came = run_all(
                rt, alloc, scope, shared, graph, callers, room, threading, watch,
            );
            if came.is_none() {
                shared.end(rt);
            }
            match threading {
                Threading::PerBlock => shared.show(rt, watch),
                Threading::Adaptive => watch.end(),
            }
            came
        },
    )
}

// How the run ended, by what it left.
fn ended<B: Block, C: Drop>(
    locked: Locked<B>,
    opening: &Opening<B>,
    came: Option<Returned<C>>,
    turns: Turns,
) -> Result<Finished<B, C>, RunFault<B>>
    ensures ends { IfOk result (λ f. LiveRunEndsIn B.meaning B.eq opening.now (map noted_by f.history.items)
        f.outcome) }
    ensures logs { IfOk result (λ f. AreLogs (map (λ l. map noted_by l.items) f.logs.items)
        (map noted_by f.history.items)) }
    ensures callers { IfOk result (λ f. came ≡ Some (record { callers = f.callers; logs = f.logs })) }
    ensures asked { IfOk result (λ f. IsAsAsked locked.asked f.outcome) }
    ensures turns { IfOk result (λ f. f.turns ≡ turns) }
    ensures err { IfErr result (GivesBackLive B.meaning B.eq opening.now) }
    ensures told { IfErr result (IsSo locked.starved (not (is_some came))) }
{
    let Locked {
        engine,
        asked,
        starved,
        ..
    } = locked;
    let Engine::Noted(recorded) = engine else {
        return Err(RunFault::Foreign);
    };
    let Some((plant, history)) = recorded.have_returned(opening) else {
        return Err(RunFault::Foreign);
    };
    let Some(Returned { callers, logs }) = came else {
        return Err(RunFault::Thread(plant));
    };
    if !are_logs(&logs, &history) {
        return Err(RunFault::Foreign);
    }
    let outcome = if plant.all_done() {
        Outcome::Done(plant)
    } else if starved {
        return Err(RunFault::Memory(plant));
    } else if asked {
        Outcome::Stopped(plant)
    } else if plant.quiet() {
        Outcome::Stalled(plant)
    } else {
        return Err(RunFault::Foreign);
    };
    Ok(Finished {
        outcome,
        history,
        logs,
        callers,
        turns,
    })
}
