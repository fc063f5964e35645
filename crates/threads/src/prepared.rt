//! A run of which no thread was started yet, and how a plant is given back that could not run.

ghost use Rattle.std.specs.Prelude.{◌≡◌, true, false, IfOk, IfErr, IfSome};
ghost use Rattle.std.specs.Arc.{arc_value};
ghost use Rattle.std.specs.Option.{option_map};
ghost use Rattle.stream_model.specs.Machine.{is_idle};
ghost use Rattle.threads.specs.Live.{GivesBackLive};
ghost use Rattle.call_history.specs.Reached.{opening_of};
ghost use Rattle.threads.specs.Outcomes.{HasReturned, GivesBack, IsSo, handed_of};

use crate::fault::RunFault;
use crate::locked::Locked;
use crate::running::{Running, came_back};
use crate::shared::Shared;
use call_history::Engine;
use flowgraph::Block;
use plant::{Handed, Plant};
use scheduling::crew::Crew;
use scheduling::pool::Pool;
use scheduling::waiting::Waiting;
use scheduling::{Gate, Turns};
use std::alloc::{AllocError, AllocFailed, Global};
use std::sync::Arc;
use std::thread::{JoinHandle, Parker};

/// A run of which no thread was started yet.
pub fn prepare<B: Block, G: Gate + Drop>(
    alloc: Global,
    plant: Plant<B>,
    gate: Option<Arc<G, Global>>,
    turns: Turns,
    crew: Crew,
) -> Result<Running<B, G>, RunFault<B>>
    requires { is_idle plant.state ≡ true }
    ensures ok { IfOk result (λ r. r ≡ record {
      handed = handed_of plant;
      asked = false;
      most = turns.most;
      gate = option_map arc_value gate;
    }) }
    ensures err { IfErr result (GivesBack B.meaning B.eq (handed_of plant)) }
    ensures told { IfErr result (IsSo true false) }
{
    let Parts {
        locked,
        handed,
        parkers,
        workers,
    } = parts_of(alloc, plant, turns, crew)?;
    let shared = Shared::new(locked, parkers, gate, turns);
    match Arc::new(alloc, shared) {
        Ok(shared) => Ok(Running {
            shared,
            workers,
            handed,
            asked: false,
        }),
        Err(refused) => Err(lacked(refused, &handed)),
    }
}

// A plant with what its run needs.
#[derive(Drop)]
struct Parts<B: Block> {
    locked: Locked<B>,
    handed: Handed<B>,
    parkers: Vec<Parker>,
    workers: Vec<JoinHandle<()>>,
}

// All that a run needs, and a record of what its plant was handed.
fn parts_of<B: Block>(
    alloc: Global,
    plant: Plant<B>,
    turns: Turns,
    crew: Crew,
) -> Result<Parts<B>, RunFault<B>>
    requires { is_idle plant.state ≡ true }
    ensures ok { IfOk result (λ p. p.handed ≡ handed_of plant) }
    ensures err { IfErr result (GivesBack B.meaning B.eq (handed_of plant)) }
    ensures memory { IfErr result (IsSo true false) }
{
    match rooms_of(alloc, &plant, turns, crew) {
        Ok((handed, (waiting, pool), parkers, workers)) => Ok(Parts {
            locked: Locked::new(Engine::Plain(plant), waiting, pool, 0),
            handed,
            parkers,
            workers,
        }),
        Err(_) => Err(out_of_memory(plant)),
    }
}

// What a run needs beside its plant.
type Rooms<B> = (Handed<B>, (Waiting, Pool), Vec<Parker>, Vec<JoinHandle<()>>);

fn rooms_of<B: Block>(
    alloc: Global,
    plant: &Plant<B>,
    turns: Turns,
    crew: Crew,
) -> Result<Rooms<B>, AllocError>
    ensures { IfOk result (λ r. r.0 ≡ handed_of plant.now) }
{
    let graph = plant.graph();
    Ok((
        plant.handed(alloc)?,
        crew.waiting_and_pool(alloc, graph, turns)?,
        make_parkers(alloc, graph.len())?,
        Vec::with_capacity(alloc, graph.len())?,
    ))
}

/// Where so many threads sleep.
pub fn make_parkers(alloc: Global, count: usize) -> Result<Vec<Parker>, AllocError> {
    let mut parkers = Vec::with_capacity(alloc, count)?;
    for parker in 0..count {
        let _ = parker;
        parkers.push_reserved(Parker::new());
    }
    Ok(parkers)
}

/// A plant that lacked the memory to run.
pub fn out_of_memory<B: Block>(plant: Plant<B>) -> RunFault<B>
    requires { is_idle plant.state ≡ true }
    ensures back { GivesBack B.meaning B.eq (handed_of plant) result }
    ensures live { GivesBackLive B.meaning B.eq (opening_of plant) result }
    ensures memory { IsSo true false result }
{
    plant.recall();
    RunFault::Memory(plant)
}

// Gives the plant back where there was no memory for what its threads share.
fn lacked<B: Block, G: Gate + Drop>(
    refused: AllocFailed<Shared<B, G>>,
    handed: &Handed<B>,
) -> RunFault<B>
    ensures back { GivesBack B.meaning B.eq handed.now result }
    ensures memory { IsSo true false result }
{
    match given_back(refused.value, handed) {
        Some(plant) => RunFault::Memory(plant),
        None => RunFault::Foreign,
    }
}

/// The plant of a run that could not begin, where it has what was handed in.
pub fn given_back<B: Block, G: Gate + Drop>(
    shared: Shared<B, G>,
    handed: &Handed<B>,
) -> Option<Plant<B>>
    ensures { IfSome result (HasReturned B.meaning B.eq handed.now) }
{
    let Locked { engine, .. } = shared.locked.into_inner();
    let Engine::Plain(plant) = engine else {
        return None;
    };
    if came_back(&plant, handed) {
        Some(plant)
    } else {
        None
    }
}
