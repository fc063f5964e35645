//! What a run with callers needs before its threads are started.

ghost use Rattle.std.specs.Prelude.{◌≡◌, true, false, IfOk, IfErr};
ghost use Rattle.std.specs.Arc.{arc_value};
ghost use Rattle.stream_model.specs.Machine.{is_idle};
ghost use Rattle.threads.specs.Desks.{IsEmpty};
ghost use Rattle.threads.specs.Live.{GivesBackLive};
ghost use Rattle.call_history.specs.Reached.{opening_of};
ghost use Rattle.threads.specs.Outcomes.{IsSo};

use crate::desk::Caller;
use crate::desks::Room;
use crate::fault::RunFault;
use crate::locked::Locked;
use crate::prepared::{make_parkers, out_of_memory};
use call_history::{Engine, Recorded};
use flowgraph::{Block, Valid};
use plant::{Opening, Plant};
use scheduling::Turns;
use scheduling::crew::Crew;
use scheduling::pool::Pool;
use scheduling::waiting::Waiting;
use std::alloc::{AllocError, Global};
use std::sync::Arc;
use std::thread::Parker;

/// What a run needs beside its lock.
#[derive(Drop)]
pub struct LiveRooms<B: Block, C: Caller<B> + Drop> {
    pub opening: Opening<B>,
    pub graph: Arc<Valid<B>, Global>,
    pub parkers: Vec<Parker>,
    pub room: Room<B, C>,
}

/// All that a run needs.
pub fn prepare<B: Block, C: Caller<B> + Drop + Send>(
    alloc: Global,
    plant: Plant<B>,
    callers: usize,
    turns: Turns,
    crew: Crew,
) -> Result<(Locked<B>, LiveRooms<B, C>), RunFault<B>>
    requires idle { is_idle plant.state ≡ true }
    ensures opening { IfOk result (λ p. p.1.opening ≡ opening_of plant) }
    ensures graph { IfOk result (λ p. arc_value p.1.graph ≡ plant.graph) }
    ensures room { IfOk result (λ p. IsEmpty p.1.room) }
    ensures err { IfErr result (GivesBackLive B.meaning B.eq (opening_of plant)) }
    ensures memory { IfErr result (IsSo true false) }
{
    match (
        rooms_of(alloc, &plant, callers),
        locked_rooms_of(alloc, &plant, turns, crew),
    ) {
        (Ok(rooms), Ok((opening, waiting, pool))) => Ok((
            Locked::new(
                Engine::Noted(Recorded::new(alloc, plant, opening)),
                waiting,
                pool,
                callers,
            ),
            rooms,
        )),
        _ => Err(out_of_memory(plant)),
    }
}

// What a run needs beside its lock.
fn rooms_of<B: Block, C: Caller<B> + Drop + Send>(
    alloc: Global,
    plant: &Plant<B>,
    callers: usize,
) -> Result<LiveRooms<B, C>, AllocError>
    ensures opening { IfOk result (λ rooms. rooms.opening ≡ opening_of plant.now) }
    ensures graph { IfOk result (λ rooms. arc_value rooms.graph ≡ plant.now.graph) }
    ensures room { IfOk result (λ rooms. IsEmpty rooms.room) }
{
    Ok(LiveRooms {
        opening: plant.opening(alloc)?,
        graph: plant.share_graph()?,
        parkers: make_parkers(alloc, plant.graph().len())?,
        room: Room::with_capacity(alloc, callers)?,
    })
}

// What a run needs under its lock. It records once more where the plant begins, to compare that with what comes out of
// the lock.
fn locked_rooms_of<B: Block>(
    alloc: Global,
    plant: &Plant<B>,
    turns: Turns,
    crew: Crew,
) -> Result<(Opening<B>, Waiting, Pool), AllocError>
    ensures { IfOk result (λ r. r.0 ≡ opening_of plant.now) }
{
    let opening = plant.opening(alloc)?;
    let (waiting, pool) = crew.waiting_and_pool(alloc, plant.graph(), turns)?;
    Ok((opening, waiting, pool))
}
