//! What `scheduling::policy` leaves to helpers: which blocks are dear, and whether it pays to call helpers for them.

use scheduling::policy::{JOB_COST, Pace, is_timed, is_worth};

/// So many nanoseconds a block has nothing to do between two of its jobs, while one is on its way back and the next on
/// its way there.
const WAY: u64 = 25_000;

/// While helpers are called, the first step of a round is only to measure.
const FEW_FIRINGS: u32 = 256;

/// A step that took less, of fewer firings than an eighth of a share, tells nothing: what it took may be the step's
/// own.
const SHORT: u64 = JOB_COST / 2;

/// Whether it pays to call helpers: whether a job of each dear block takes the caller at least half as long again as
/// the longest of them with its way, which is how often such a round of jobs comes about with helpers.
pub fn pays(habits: &[Habit]) -> bool {
    let (mut sum, mut longest) = (0u64, 0u64);
    for habit in habits {
        let nanos = habit.job_nanos();
        sum = sum.saturating_add(nanos);
        longest = longest.max(nanos);
    }
    0 < longest && longest.saturating_add(WAY).saturating_mul(3) <= sum.saturating_mul(2)
}

/// Which rounds are timed.
#[derive(Clone, Copy)]
pub struct Rounds {
    begun: u64,
}

impl Rounds {
    /// None has begun.
    pub fn new() -> Rounds {
        Rounds { begun: 0 }
    }

    /// One more begins. It returns whether it is timed, where helpers are called or not.
    pub fn begins(&mut self, are_called: bool) -> bool {
        let number = self.begun;
        self.begun = self.begun.saturating_add(1);
        are_called || is_timed(number)
    }

    /// How many firings a block has at most in the first step of a round.
    pub fn first_firings(are_called: bool) -> u32 {
        if are_called { FEW_FIRINGS } else { u32::MAX }
    }
}

/// What steps of a block have shown of it.
#[derive(Clone, Copy)]
pub struct Habit {
    // Half of what its buffers hold, in firings.
    whole: u32,
    // The last pace, and the shorter of the last two, which counts: one alone may have been disturbed.
    last: Pace,
    pace: Pace,
}

impl Habit {
    /// Nothing is known of a block but how many firings half of its buffers hold.
    pub fn new(whole: u32) -> Habit {
        Habit {
            whole,
            last: Pace::unknown(),
            pace: Pace::unknown(),
        }
    }

    /// A step of so many firings took so long.
    pub fn stepped(&mut self, firings: u32, nanos: u64) {
        if nanos < SHORT && u64::from(firings).saturating_mul(8) < u64::from(self.whole) {
            return;
        }
        let pace = Pace::of(firings, nanos);
        self.pace = self.last.or_shorter(pace);
        self.last = pace;
    }

    /// How many firings are given away at once, if the block is dear.
    pub fn share(&self) -> Option<u32> {
        let share = self.pace.turn(self.whole);
        if self.is_worth(share) {
            Some(share)
        } else {
            None
        }
    }

    // How many nanoseconds a job of it takes; none where it is not dear.
    fn job_nanos(&self) -> u64 {
        match self.share() {
            Some(share) => self.pace.nanos_of(share),
            None => 0,
        }
    }

    /// Whether the work of so many firings is worth being given away.
    pub fn is_worth(&self, firings: u32) -> bool {
        is_worth(self.pace.nanos_of(firings), JOB_COST)
    }
}
