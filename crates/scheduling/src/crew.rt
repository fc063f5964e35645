//! Who acts for the blocks of a run.

use crate::number_set::NumberSet;
use crate::pool::Pool;
use crate::run_options::Threading;
use crate::turns::Turns;
use crate::waiting::Waiting;
use flowgraph::{Block, Valid};
use std::alloc::{AllocError, Global};

/// Who acts for the blocks of a run.
#[derive(Clone, Copy)]
pub enum Crew {
    /// A worker for each.
    Workers,
    /// A pool of threads for all. These blocks are known to be heavy.
    Pool(NumberSet),
}

impl Crew {
    /// Who acts while nothing is known of the blocks yet.
    pub fn new(threading: Threading) -> Crew {
        match threading {
            Threading::PerBlock => Crew::Workers,
            Threading::Adaptive => Crew::Pool(NumberSet::new()),
        }
    }

    /// What the lock guards of who waits and who acts, for turns of this length.
    pub fn waiting_and_pool<B: Block>(
        self,
        alloc: Global,
        graph: &Valid<B>,
        turns: Turns,
    ) -> Result<(Waiting, Pool), AllocError> {
        Ok(match self {
            Crew::Workers => (Waiting::new(alloc, graph.len())?, Pool::none(alloc)),
            Crew::Pool(heavy) => (Waiting::none(alloc), Pool::new(alloc, graph, turns, heavy)?),
        })
    }
}
