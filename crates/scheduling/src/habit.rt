//! What steps and turns of a block in a pool show of it.

ghost use Rattle.std.specs.Prelude.{◌≤◌};

use crate::policy::{Pace, is_long, is_still_worth};

/// Of so many steps of a light block in a pool one is timed: these are shorter than rounds, and fewer.
const TIMED_STEP: u32 = 16;

/// The first step of a block in a pool has so many firings at most, as the turns of a usual run, since it may be dear.
const FIRST_STEP: u32 = 1_024;

/// So many measurements in a row count. One alone may be long because the kernel used the processor for something else;
/// two seldom are.
const SIGNS: u32 = 2;

/// How often the pause before a block is tried again is doubled at most: to 16,384 steps, which are a part of a second.
const DOUBLED: u32 = 10;

/// What a block turns out to be.
#[derive(Clone, Copy)]
pub enum Sort {
    /// It is stepped under the lock.
    Light,
    /// Its work is done outside of the lock.
    Heavy,
}

/// The next step of a block under the lock.
#[derive(Clone, Copy)]
pub struct NextStep {
    /// How many firings it has at most.
    pub most: u32,
    pub is_timed: bool,
    ghost some: { 1 ≤ most },
}

impl NextStep {
    /// Of one firing.
    pub fn shortest() -> NextStep {
        NextStep {
            most: 1,
            is_timed: false,
        }
    }
}

/// What the steps and turns of a block in a pool have shown of it.
#[derive(Clone, Copy)]
pub struct Habit {
    // Its share of its buffers, as many firings of it as make a turn, and how many a step under the lock has at most.
    whole: u32,
    share: u32,
    most: u32,
    // So many steps are not timed from here on.
    untimed: u32,
    // How many timed steps in a row were long, or how many turns in a row were not worth it.
    signs: u32,
    // How often it turned out not to be worth a thread.
    trials: u32,
}

impl Habit {
    /// Nothing is known of a block but its share of its buffers.
    pub fn new(whole: u32) -> Habit {
        Habit {
            whole,
            share: whole,
            most: FIRST_STEP,
            untimed: 0,
            signs: 0,
            trials: 0,
        }
    }

    /// How many firings a turn outside of the lock has at most.
    pub fn share(&self) -> u32
        ensures { 1 ≤ result }
    {
        self.share.max(1)
    }

    /// The next step under the lock.
    pub fn steps(&mut self) -> NextStep {
        let is_timed = self.untimed == 0;
        self.untimed = self.untimed.saturating_sub(1);
        NextStep {
            most: self.most.max(1),
            is_timed,
        }
    }

    /// A timed step of so many firings took so long. It returns what the block turns out to be, where it shows.
    pub fn stepped(&mut self, firings: u32, nanos: u64) -> Option<Sort> {
        if !is_long(nanos) {
            self.signs = 0;
            self.untimed = TIMED_STEP;
            self.most = u32::MAX;
            return Some(Sort::Light);
        }
        if !self.has_shown() {
            return None;
        }
        self.share = Pace::of(firings, nanos).turn(self.whole);
        self.most = self.share;
        self.untimed = TIMED_STEP;
        Some(Sort::Heavy)
    }

    /// A turn of so many firings outside of the lock took so long, and its claim and its commit `held`. It returns what
    /// the block turns out to be, where it shows.
    pub fn worked(&mut self, firings: u32, nanos: u64, held: u64) -> Option<Sort> {
        if is_still_worth(nanos, held) {
            self.signs = 0;
            self.share = Pace::of(firings, nanos).turn(self.whole);
            return None;
        }
        if !self.has_shown() {
            return None;
        }
        self.trials = self.trials.saturating_add(1).min(DOUBLED);
        self.untimed = TIMED_STEP << self.trials;
        // (it may be dear still, and was only disturbed)
        self.most = self.share;
        Some(Sort::Light)
    }

    // One sign more, and whether they are enough.
    fn has_shown(&mut self) -> bool {
        self.signs = self.signs.saturating_add(1);
        if self.signs < SIGNS {
            return false;
        }
        self.signs = 0;
        true
    }
}
