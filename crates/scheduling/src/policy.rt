//! The policy of all that choose how many threads work: what work is worth a thread, how much of it one takes at once,
//! how that is measured, and how long a thread looks before it sleeps. Two read it: a run to its end, whose threads are
//! a pool (`rounds` and `habit` have the numbers that only it needs), and a plant that streams, whose owner has helpers
//! (`worth` of `helper_threads` has theirs). Neither what sinks hold nor any contract depends on it.
//!
//! **What it is for.** Two threads that hand items to one another sleep and wake for each buffer that is full or empty,
//! and a sleep with its wake-up costs several microseconds of the kernel's time. A step of a cheap block costs less
//! than one. So a graph of cheap blocks is fastest on one thread, and a graph of dear ones on as many as there are
//! processors. Only a run shows which a graph is.
//!
//! **Why there are two.** A plant that streams belongs to one thread, so it can be spoken to between two steps. A run
//! to its end is faster in a pool: of 41 graphs of a million items and more, an owner with helpers is within 1.15 of it
//! in 29, and takes up to 1.52 times as long in the others (`benches/results/threads.md`), mostly because its threads
//! start before anything is known.
//!
//! **Alone.** A run begins on the caller's thread. It steps all blocks in turn, round after round, as `settle` does,
//! with no lock and no other thread. Some rounds are timed (`is_timed`). If one took `2 * LONG` or more, each step of
//! the next round is timed. If two blocks or more took `LONG`, the next round times their work apart from their claim
//! and commit (`Rounds`). If the work of two blocks or more is worth a thread (`is_worth`), the run splits. One such
//! block alone would have no other to work beside.
//!
//! **A pool.** From then on the plant lies under a lock, and threads take turns of it (`errands`). A thread that has
//! the lock commits what it did, steps the light blocks that may act, one after another, claims firings of a heavy
//! block, lets the lock go, and does their work. So light blocks never cost a wake-up: whoever has the lock steps them.
//! If another thread waits with work in hand, or no light block may act, a heavy block comes first.
//!
//! **Who is heavy.** In a pool one step of a block in `TIMED_STEP` is timed, and `SIGNS` long ones in a row make the
//! block heavy (`Habit::stepped`). Each of a heavy block's turns is weighed against its claim and commit, and `SIGNS`
//! in a row that are not worth it make it light again (`Habit::worked`). Then it is tried again after a pause that
//! doubles each time, so that a block on the border does not swing. A turn is as many firings as take about `TURN`, as
//! far as the block's share of its buffers goes (`Pace::turn`).
//!
//! **Who is woken.** A thread that leaves with work, while another heavy block may act, calls one sleeper, unless one
//! that was called has not come yet (`Pool::goes`, `Pool::call`). If nobody sleeps, the first thread starts one more
//! when it comes back from its own work, up to one a processor and one a block. So threads come one by one, as far as
//! there is work. Any progress of a block marks its neighbours as ready, whatever they wait for: trying a block costs
//! less than keeping what it waits for.
//!
//! **How long the lock is held.** For at most `STEPS` steps; each light one takes less than about `LONG`. A lone heavy
//! block is stepped there too. Before each step the thread looks for a guest (a stop, a look at the headway), and lets
//! it go first. A sink, or the history of a run with callers, that outgrows its room moves to a larger one under the
//! lock. That is rare, but takes longer the more they hold.
//!
//! **How a run ends.** A thread with nothing to do sleeps while another is at work, whose result may be work for it.
//! The last one asks the plant: if all blocks are done or it is quiet, the run is over; else a block that may act was
//! not marked, which should never happen, and all look again (`Gate::missed`).
//!
//! **Helpers.** The owner of a plant that streams begins each round with a step of each block, and some rounds are
//! timed (`is_timed`). A block is dear if a turn of it is worth what a job costs the owner. Helpers are called where
//! that pays, and from then on each round goes on with jobs, each of which is a turn.

use std::thread;
use std::thread::Threads;

/// What takes so many nanoseconds may be worth a thread. Waking a thread takes about as long, so shorter work is done
/// before the thread is there.
pub const LONG: u64 = 4_000;

/// What was worth a thread stays so above this, so that a block on the border does not swing.
const STILL_LONG: u64 = LONG / 2;

/// Work is worth a thread if it takes at least so many times as long as giving it away and taking it back costs the one
/// that has the plant. It does so for one piece of work at a time: with a lesser ratio no two threads could be kept at
/// work.
const WORTH: u64 = 2;

/// So many nanoseconds a job costs the owner of a plant that streams, which sends it and takes it back by channels. A
/// pool hands work over under its lock, in 300 to 1,400 (`lock` in `benches/results/threads.md`), and measures that.
pub const JOB_COST: u64 = 5_000;

/// A turn takes about so many nanoseconds. What it costs besides, as its wake-up, is lost in 25 times as much, and a
/// longer turn would keep the blocks behind it waiting.
const TURN: u64 = 100_000;

/// The first rounds, each of which is timed: as many as a pool needs to decide on a split, and one more.
pub const FIRST_ROUNDS: u64 = 4;

/// One of so many rounds is timed after them. Reading a clock takes some 30 nanoseconds, so this costs nothing even in
/// rounds of a few blocks.
const TIMED_ROUND: u64 = 32;

/// Paces are measured in nanoseconds for so many firings.
const UNIT: u64 = 1_024;

/// So often a thread looks for the lock, or for its next message, before it sleeps: some 30 microseconds, which is what
/// a sleep with its wake-up costs both sides.
pub const LOOKS: u32 = 500;

/// So many steps a thread of a pool makes before it lets the lock go: some tens of microseconds, and a quarter of a
/// millisecond at most where all are light. A lone heavy block is stepped there too, some `TURN` each time.
pub const STEPS: u32 = 64;

/// So often a thread of a pool lets guests go first by spinning, a microsecond or so, before it asks for the lock
/// again. It does not sleep afterwards, so it need not spin for as long as `LOOKS`. A guest that sleeps for the lock
/// takes longer to come, but then the thread finds it waiting, makes no step, and spins again.
pub const YIELDS: u32 = 100;

/// Whether something took so long that it may be worth a thread.
pub fn is_long(nanos: u64) -> bool {
    LONG <= nanos
}

/// Whether work of so many nanoseconds is worth a thread, if giving it away and taking it back costs so many.
pub fn is_worth(nanos: u64, cost: u64) -> bool {
    is_long(nanos) && pays_for(nanos, cost)
}

/// Whether work that was worth a thread still is.
pub fn is_still_worth(nanos: u64, cost: u64) -> bool {
    STILL_LONG <= nanos && pays_for(nanos, cost)
}

fn pays_for(nanos: u64, cost: u64) -> bool {
    cost.saturating_mul(WORTH) <= nanos
}

/// Whether the round of this number is timed.
pub fn is_timed(round: u64) -> bool {
    round < FIRST_ROUNDS || round % TIMED_ROUND == 0
}

/// How many threads can work at once.
pub fn processors<R: Threads>(rt: &R) -> usize {
    match thread::available_parallelism(rt) {
        Ok(count) => count.get(),
        Err(_) => 1,
    }
}

/// How long firings of a block take.
#[derive(Clone, Copy)]
pub struct Pace {
    // For `UNIT` of them.
    nanos: u64,
}

impl Pace {
    /// So many firings took so long.
    pub fn of(firings: u32, nanos: u64) -> Pace {
        Pace {
            nanos: nanos.saturating_mul(UNIT) / u64::from(firings).max(1),
        }
    }

    /// They take no time, as far as is known.
    pub fn unknown() -> Pace {
        Pace { nanos: 0 }
    }

    /// The shorter of two.
    pub fn or_shorter(self, other: Pace) -> Pace {
        Pace {
            nanos: self.nanos.min(other.nanos),
        }
    }

    /// How many nanoseconds so many firings take.
    pub fn nanos_of(self, firings: u32) -> u64 {
        self.nanos.saturating_mul(u64::from(firings)) / UNIT
    }

    /// How many firings make a turn, and at most so many: what takes about `TURN`, but at least one.
    pub fn turn(self, most: u32) -> u32 {
        let turn = TURN.saturating_mul(UNIT) / self.nanos.max(1);
        u32::try_from(turn).unwrap_or(u32::MAX).min(most).max(1)
    }
}
