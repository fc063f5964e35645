//! Options of a run in threads.

ghost use Rattle.std.specs.Prelude.{◌≡◌, None};
ghost use Rattle.scheduling.specs.declared.run_options.Threading.TheVariants as threading;

use crate::gate::{Gate, Open};
use crate::turns::Turns;
use std::alloc::Global;
use std::sync::Arc;

/// How many threads the blocks of a run work in. What the sinks hold does not depend on it.
#[derive(Clone, Copy, Debug, PartialEq, Eq)]
pub enum Threading {
    /// As many as the work is worth: first one, which steps all blocks in turn as `Plant::settle` does. Once the
    /// work of several blocks is worth it, up to one a processor. Work that another thread could do passes the gate.
    /// Steps on one thread do not; the gate is told of them. The work of a block must not wait for that of another.
    Adaptive,
    /// One for each block. All work passes the gate.
    PerBlock,
}

/// Options of a run.
#[derive(Drop)]
pub struct RunOptions<G: Gate + Drop> {
    /// How many threads the blocks work in.
    pub threading: Threading,
    /// How many firings are claimed at most in one turn.
    pub turns: Turns,
    /// The gate that threads pass, if there is one.
    pub gate: Option<Arc<G, Global>>,
}

impl RunOptions<Open> {
    /// Such threads and turns, and no gate.
    pub fn new(threading: Threading, turns: Turns) -> RunOptions<Open>
        ensures { result ≡ record { threading = threading; turns = turns; gate = None } }
    {
        RunOptions {
            threading,
            turns,
            gate: None,
        }
    }
}

impl<G: Gate + Drop> RunOptions<G> {
    /// The options of `launch` and `run`: a thread for each block, turns of at most 1,024 firings, and this gate.
    pub fn per_block(gate: Option<Arc<G, Global>>) -> RunOptions<G>
        ensures threading { result.threading ≡ threading.PerBlock }
        ensures turns { result.turns.most ≡ 1024 }
        ensures gate { result.gate ≡ gate }
    {
        RunOptions {
            threading: Threading::PerBlock,
            turns: Turns::default(),
            gate,
        }
    }
}

impl Default for RunOptions<Open> {
    /// As many threads as the work is worth, turns of at most 1,024 firings, and no gate.
    fn default() -> RunOptions<Open>
        ensures threading { result.threading ≡ threading.Adaptive }
        ensures turns { result.turns.most ≡ 1024 }
        ensures gate { result.gate ≡ None }
    {
        RunOptions::new(Threading::Adaptive, Turns::default())
    }
}
