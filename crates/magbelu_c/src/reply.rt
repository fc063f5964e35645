//! The answer to a call of a held plant.

ghost use Rattle.std.specs.Prelude.{◌≡◌};
ghost use Rattle.plant.specs.Answers.{refusal_of, step_reply};
ghost use Rattle.firing_rules.specs.Waits.{wait_seen};
ghost use Rattle.magbelu_c.specs.Replies.{at_rest, done, no_memory, not_open, refused, told_maybe, told_of};
ghost use Rattle.magbelu_c.specs.Waiting.{waiting};

use plant::{BlockNeed, Need, PlantFault, Step};
use refusal_codes::Refusal;

/// The result of a call of a held plant.
#[repr(C)]
#[derive(Clone, Copy, Debug, PartialEq, Eq)]
pub struct Reply {
    /// 0; 3 if the plant came to rest before all blocks were done; 1 for a refusal; 4 if memory ran out.
    pub status: u32,
    /// The number of the refusal, or 0.
    pub number: u32,
    /// What a step came to, or what a block waits for: 0 for firings, 1 for the end of its block, 2 if it waits for
    /// items, 3 if it waits for room, 5 for a source that waits to be fed; else 0.
    pub what: u32,
    /// A number: the items of a tape, the item that a setting is in force from, the firings, or the port that a block
    /// waits at.
    pub value: u64,
}

/// A call was done.
pub(crate) fn done(what: u32, value: u64) -> Reply
    ensures { result ≡ done what value }
{
    Reply {
        status: 0,
        number: 0,
        what,
        value,
    }
}

/// No plant is held, or not one that has such a call.
pub(crate) fn not_open() -> Reply
    ensures { result ≡ not_open }
{
    refused(55, 0)
}

/// The plant came to rest before all blocks were done.
pub(crate) fn at_rest() -> Reply
    ensures { result ≡ at_rest }
{
    Reply {
        status: 3,
        number: 0,
        what: 0,
        value: 0,
    }
}

/// A call was refused.
pub(crate) fn refused(number: u32, value: u64) -> Reply
    ensures { result ≡ refused number value }
{
    Reply {
        status: 1,
        number,
        what: 0,
        value,
    }
}

/// The plant refused a call, or memory ran out.
pub(crate) fn refusal(fault: PlantFault) -> Reply
    ensures { result ≡ told_maybe (refusal_of fault) }
{
    match fault {
        PlantFault::Memory => no_memory(),
        PlantFault::Late { floor } => refused(fault.number(), floor),
        fault => refused(fault.number(), 0),
    }
}

/// Memory ran out.
pub(crate) fn no_memory() -> Reply
    ensures { result ≡ no_memory }
{
    Reply {
        status: 4,
        number: PlantFault::Memory.number(),
        what: 0,
        value: 0,
    }
}

/// What a step came to.
pub(crate) fn of_step(step: Step) -> Reply
    ensures { result ≡ told_of (step_reply step) }
{
    match step {
        Step::Did(count) => done(0, u64::from(count)),
        Step::Done => done(1, 0),
        Step::Waiting(Need::Items(port)) => done(2, port as u64),
        Step::Waiting(Need::Room(port)) => done(3, port as u64),
        // (no claim is in flight, so no block is busy)
        Step::Busy => done(4, 0),
    }
}

/// What a block waits for.
pub(crate) fn of_need(need: BlockNeed) -> Reply
    ensures { result ≡ waiting (wait_seen need) }
{
    match need {
        BlockNeed::Ready => done(0, 0),
        BlockNeed::Done => done(1, 0),
        BlockNeed::Items { port, .. } => done(2, port as u64),
        BlockNeed::Room { port, .. } => done(3, port as u64),
        // (no claim is in flight, so no block is busy)
        BlockNeed::Busy => done(4, 0),
        BlockNeed::Feed => done(5, 0),
    }
}
