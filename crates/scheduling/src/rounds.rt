//! The rounds of a run on one thread, of which some are timed.

ghost use Rattle.std.specs.Prelude.{◌≤◌};

use crate::number_set::NumberSet;
use crate::policy::{FIRST_ROUNDS, LONG, is_timed};

/// How many firings a block has in each of the first rounds at most: as many as a usual buffer holds, so that a large
/// one does not put off the decision.
const FIRST_FIRINGS: u32 = 4_096;

/// What is timed in a round alone.
#[derive(Clone, Copy)]
pub enum Timed {
    Nothing,
    Round,
    /// Each step.
    Steps,
    /// Of these blocks the work, and the claim with the commit.
    Work(NumberSet),
}

/// What was found in a round alone.
#[derive(Clone, Copy)]
pub struct Found {
    /// How long the round took.
    pub nanos: u64,
    /// Of which blocks the step was long, or the work worth a thread.
    pub long: NumberSet,
}

/// The rounds of a run alone.
#[derive(Clone, Copy)]
pub struct Rounds {
    done: u64,
    timed: Timed,
}

impl Rounds {
    /// None is done.
    pub fn new() -> Rounds {
        Rounds {
            done: 0,
            timed: Timed::Round,
        }
    }

    /// What is timed in the next one.
    pub fn timed(&self) -> Timed {
        self.timed
    }

    /// How many firings of a block the next one has at most.
    pub fn most(&self) -> u32
        ensures { 1 ≤ result }
    {
        if self.done < FIRST_ROUNDS {
            FIRST_FIRINGS
        } else {
            u32::MAX
        }
    }

    /// A round is done. It returns the blocks that are worth a thread each, where there are at least two.
    pub fn ends(&mut self, found: &Found) -> Option<NumberSet> {
        self.done = self.done.saturating_add(1);
        let are_several = 2 <= found.long.count();
        self.timed = match self.timed {
            Timed::Round if 2 * LONG <= found.nanos => Timed::Steps,
            Timed::Steps if are_several => Timed::Work(found.long),
            Timed::Work(_) if are_several => return Some(found.long),
            _ if is_timed(self.done) => Timed::Round,
            _ => Timed::Nothing,
        };
        None
    }
}
