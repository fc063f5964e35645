//! Wakes a thread that waits for several things at once.

use std::sync::{Condvar, CondvarTimeouts, Mutex, Wait};
use std::time::{Clock, Duration};

/// A bell that threads ring when something has come: a request, or what one of several readers gave. It counts rings,
/// so a ring between a look and a wait is not missed.
#[derive(Drop)]
pub struct Bell {
    rings: Mutex<u64>,
    rung: Condvar,
}

impl Bell {
    /// It was never rung.
    pub fn new() -> Bell {
        Bell {
            rings: Mutex::new(0),
            rung: Condvar::new(),
        }
    }

    /// Rings it, and wakes waiting threads.
    pub fn ring<R: Wait>(&self, rt: &R) {
        let mut rings = self.rings.lock(rt);
        *rings = rings.wrapping_add(1);
        drop(rings);
        self.rung.notify_one();
    }

    /// How often it was rung.
    pub fn rings<R: Wait>(&self, rt: &R) -> u64 {
        *self.rings.lock(rt)
    }

    /// Waits until the number of rings is not this one, and returns it.
    pub fn wait<R: Wait>(&self, rt: &R, heard: u64) -> u64 {
        let mut rings = self.rings.lock(rt);
        for _ in rt.forever() {
            if *rings != heard {
                break;
            }
            rings = self.rung.wait(rt, rings);
        }
        *rings
    }

    /// Waits like `wait`, but not longer than about this. It returns the same number if the time is up.
    pub fn wait_for<R: Wait + Clock>(&self, rt: &R, heard: u64, most: Duration) -> u64 {
        let rings = self.rings.lock(rt);
        let (rings, _timed_out) = self
            .rung
            .wait_timeout_while(rt, rings, most, |rings| { *rings == heard });
        *rings
    }
}
