//! Which threads are to be woken once the lock is let go.

use crate::number_set::NumberSet;

/// Threads that are to be woken: the workers of these blocks, or these threads of a pool. It takes no memory.
#[derive(Drop)]
pub struct Woken {
    threads: NumberSet,
    /// Whether all rested though a block could act.
    pub missed: bool,
    /// Whether the run is over, so that the watcher is woken too.
    pub ends: bool,
    /// Whether a pool has work for one thread more than it has.
    pub wants: bool,
}

impl Woken {
    /// Nobody is to be woken.
    pub fn new() -> Woken {
        Woken {
            threads: NumberSet::new(),
            missed: false,
            ends: false,
            wants: false,
        }
    }

    /// Adds a thread by its number.
    pub fn add(&mut self, thread: usize) {
        self.threads.add(thread);
    }

    /// The threads, each 64 of them as the bits of a word.
    pub fn words(&self) -> &[u64] {
        self.threads.words()
    }
}
