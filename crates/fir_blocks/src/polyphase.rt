//! Polyphase filters: each output of a firing has a branch of the taps of its own.
ghost use Rattle.std.specs.Prelude.{◌≡◌, ◌≢◌, ◌+◌, ◌-◌, ◌*◌, ◌%◌, ◌<◌, ◌≤◌, ◌*ℤ◌, ℕ, length, map};
ghost use Rattle.stream_model.specs.Lists.{item, sum_below};
ghost use Rattle.stream_model.specs.Numbers.{sat, rnd};

use crate::tap_lane::{TapLane, output};
use lane_filters::fir_row;

/// How a filter goes over its items. A firing takes `taken` items and gives `given`, each of them by a branch of the
/// taps: every `given`-th of them.
#[derive(Clone, Copy)]
pub struct Polyphase {
    pub taken: usize,
    pub given: usize,
    /// How many taps a branch has at most.
    pub branch: usize,
    pub shift: u32,
    ghost takes_some: { 1 ≤ taken },
    ghost gives_some: { 1 ≤ given },
    ghost gives_few: { given ≤ 1024 },
    ghost some_taps: { 1 ≤ branch },
    ghost few_taps: { branch ≤ 256 },
    ghost shifts: { shift ≤ 31 },
}

// Tap `n`. Past the end there are zeros.
fn tap_at(taps: &[i16], n: usize) -> i16
    ensures { result ≡ item taps.now n }
{
    match taps.get(n) {
        Some(tap) => *tap,
        None => 0,
    }
}

impl Polyphase {
    ghost use Rattle.fir_blocks.specs.Polyphase.{phased, IsSized};

    // A branch of the taps, the last first: so it lies as the items do.
    fn branch_of(&self, taps: &[i16], phase: usize) -> [i16; 256]
        requires { phase < self.now.given }
        ensures { (j : ℕ) → j < self.now.branch → item result (self.now.branch - 1 - j)
            ≡ item taps.now (phase + j * self.now.given) }
    {
        let mut branch = [0; 256];
        for j in 0..self.branch {
            branch[self.branch - 1 - j] = tap_at(taps, phase + j * self.given);
        }
        branch
    }

    // Writes an output of each firing: the one of a branch.
    fn write_branch<T: TapLane>(
        &self,
        branch: &[i16],
        phase: usize,
        window: &[T],
        count: usize,
        out: &mut [T],
    )
        requires taps { length branch.now ≡ self.now.branch }
        requires phase { phase < self.now.given }
        requires sized { IsSized self.now count (length window.now) (length out.old) }
        ensures written { (k : ℕ) → k < count → item (map T.number out.new) (k * self.now.given + phase)
            ≡ sat T.kind (rnd (sum_below self.now.branch (λ j. item branch.now j *ℤ item (map T.number window.now)
            (k * self.now.taken + j))) self.now.shift) }
        ensures kept { (n : ℕ) → n % self.now.given ≢ phase → item (map T.number out.new) n
            ≡ item (map T.number out.old) n }
    {
        for firing in 0..count {
            let start = firing * self.taken;
            let items = &window[start..start + self.branch];
            out[firing * self.given + phase] = output(branch, items, self.shift);
        }
    }

    /// Writes what the firings give under these taps: those of which `window` has the items, behind the past.
    pub fn write<T: TapLane>(&self, taps: &[i16], window: &[T], count: usize, out: &mut [T])
        requires { IsSized self.now count (length window.now) (length out.old) }
        ensures { (n : ℕ) → n < self.now.given * count → item (map T.number out.new) n
            ≡ phased T.kind self.now taps.now (map T.number window.now) n }
    {
        if self.taken == 1 && self.given == 1 && taps.len() == self.branch {
            fir_row(taps, window, self.shift, out);
            return;
        }
        for phase in 0..self.given {
            let branch = self.branch_of(taps, phase);
            self.write_branch(&branch[..self.branch], phase, window, count, out);
        }
    }
}
