//! Machines in which two rows lead to each state: the path with one step more is the cheaper of two.
ghost use Rattle.std.specs.Prelude.{◌≡◌, ◌+◌, ◌*◌, ◌<◌, ◌≤◌, ℕ, suc, false, length, map, slice_index_or};
ghost use Rattle.kind_model.specs.Trellis.{decoded, states_of};
ghost use Rattle.viterbi_decoder.specs.Found.{behind, row_of_two, IsSum, AreSums, AreLastRows, ArePairs, AreTaken};

use crate::decoder::{CHOICES, Decoder, STATES, no_symbols};
use crate::steps::chosen;
use crate::sums::added;
use crate::ways::Ways;
use numbers::Number;

impl Decoder {
    ghost use Rattle.viterbi_decoder.specs.Model.{trellis_of};
    ghost use Rattle.viterbi_decoder.specs.Ways.{are_ways};

    // The sum of the path found to the state that a row leads from, with this row behind it.
    #[inline(always)]
    fn sum_by<T: Number>(
        &self,
        metrics: &[T],
        step: usize,
        state: usize,
        ways: &Ways,
        before: &[i64],
    ) -> i64
        requires metrics { length metrics.now ≡ self.now.steps * self.now.outputs }
        requires step { step < self.now.steps }
        requires state { state < states_of (trellis_of self.now) }
        requires ways { are_ways (trellis_of self.now) ways.now }
        requires long { states_of (trellis_of self.now) ≤ length before.now }
        requires sums { AreSums (trellis_of self.now) (map T.number metrics.now) step before.now }
        ensures { IsSum (trellis_of self.now) (map T.number metrics.now) (suc step)
            (behind (trellis_of self.now) (map T.number metrics.now) step (slice_index_or ways.now.rows state 0))
            result }
    {
        let from = usize::from(ways.from[state]);
        let output = usize::from(ways.outputs[state]);
        added(before[from], self.metric_of(metrics, step, output))
    }

    // Finds the path with one step more to a state: of two, the later where it costs less.
    #[inline(always)]
    fn take_pair<T: Number>(
        &self,
        metrics: &[T],
        step: usize,
        state: usize,
        early: &Ways,
        late: &Ways,
        before: &[i64],
        after: &mut [i64],
        are_late: &mut [bool],
    )
        requires metrics { length metrics.now ≡ self.now.steps * self.now.outputs }
        requires step { step < self.now.steps }
        requires state { state < states_of (trellis_of self.now) }
        requires early { are_ways (trellis_of self.now) early.now }
        requires late { are_ways (trellis_of self.now) late.now }
        requires pairs { ArePairs (trellis_of self.now) early.now.rows late.now.rows }
        requires long { states_of (trellis_of self.now) ≤ length before.now }
        requires long_after { states_of (trellis_of self.now) ≤ length after.old }
        requires room { self.now.steps * states_of (trellis_of self.now) ≤ length are_late.old }
        requires sums { AreSums (trellis_of self.now) (map T.number metrics.now) step before.now }
        requires taken { AreTaken (trellis_of self.now) (map T.number metrics.now) step state after.old
            (row_of_two (trellis_of self.now) early.now.rows late.now.rows are_late.old step) }
        ensures len { length after.new ≡ length after.old }
        ensures late_len { length are_late.new ≡ length are_late.old }
        ensures taken { AreTaken (trellis_of self.now) (map T.number metrics.now) step (state + 1) after.new
            (row_of_two (trellis_of self.now) early.now.rows late.now.rows are_late.new step) }
        ensures stays { (i : ℕ) → i < step * states_of (trellis_of self.now)
            → slice_index_or are_late.new i false ≡ slice_index_or are_late.old i false }
    {
        let sum = self.sum_by(metrics, step, state, early, before);
        let other = self.sum_by(metrics, step, state, late, before);
        let is_late = other < sum;
        after[state] = chosen(is_late, other, sum);
        are_late[step * self.states as usize + state] = is_late;
    }

    // Finds the paths with one step more: their sums, and which of two rows is their last.
    #[inline(never)]
    fn step_pairs<T: Number>(
        &self,
        metrics: &[T],
        step: usize,
        early: &Ways,
        late: &Ways,
        before: &[i64],
        after: &mut [i64],
        are_late: &mut [bool],
    )
        requires metrics { length metrics.now ≡ self.now.steps * self.now.outputs }
        requires step { step < self.now.steps }
        requires early { are_ways (trellis_of self.now) early.now }
        requires late { are_ways (trellis_of self.now) late.now }
        requires pairs { ArePairs (trellis_of self.now) early.now.rows late.now.rows }
        requires long { states_of (trellis_of self.now) ≤ length before.now }
        requires long_after { states_of (trellis_of self.now) ≤ length after.old }
        requires room { self.now.steps * states_of (trellis_of self.now) ≤ length are_late.old }
        requires sums { AreSums (trellis_of self.now) (map T.number metrics.now) step before.now }
        requires last { AreLastRows (trellis_of self.now) (map T.number metrics.now) step
            (row_of_two (trellis_of self.now) early.now.rows late.now.rows are_late.old) }
        ensures len { length after.new ≡ length after.old }
        ensures late_len { length are_late.new ≡ length are_late.old }
        ensures sums { AreSums (trellis_of self.now) (map T.number metrics.now) (suc step) after.new }
        ensures last { AreLastRows (trellis_of self.now) (map T.number metrics.now) (suc step)
            (row_of_two (trellis_of self.now) early.now.rows late.now.rows are_late.new) }
    {
        for state in 0..self.states as usize {
            self.take_pair(metrics, step, state, early, late, before, after, are_late);
        }
    }

    // Finds the paths of a block, two steps at a time, so that no sums are copied between two.
    fn go_pairs<T: Number>(
        &self,
        metrics: &[T],
        early: &Ways,
        late: &Ways,
        sums: &mut [i64],
        after: &mut [i64],
        are_late: &mut [bool],
    )
        requires metrics { length metrics.now ≡ self.now.steps * self.now.outputs }
        requires early { are_ways (trellis_of self.now) early.now }
        requires late { are_ways (trellis_of self.now) late.now }
        requires pairs { ArePairs (trellis_of self.now) early.now.rows late.now.rows }
        requires long { states_of (trellis_of self.now) ≤ length sums.old }
        requires long_after { states_of (trellis_of self.now) ≤ length after.old }
        requires room { self.now.steps * states_of (trellis_of self.now) ≤ length are_late.old }
        requires sums { AreSums (trellis_of self.now) (map T.number metrics.now) 0 sums.old }
        ensures len { length sums.new ≡ length sums.old }
        ensures late_len { length are_late.new ≡ length are_late.old }
        ensures sums { AreSums (trellis_of self.now) (map T.number metrics.now) self.now.steps sums.new }
        ensures last { AreLastRows (trellis_of self.now) (map T.number metrics.now) self.now.steps
            (row_of_two (trellis_of self.now) early.now.rows late.now.rows are_late.new) }
    {
        let steps = self.steps as usize;
        for two in 0..steps / 2 {
            self.step_pairs(metrics, 2 * two, early, late, sums, after, are_late);
            self.step_pairs(metrics, 2 * two + 1, early, late, after, sums, are_late);
        }
        if steps % 2 == 1 {
            self.step_pairs(metrics, steps - 1, early, late, sums, after, are_late);
            self.keep(after, sums);
        }
    }

    // Writes the symbols of a block of metrics, by the two rows that lead to each state.
    pub(crate) fn decode_pairs<T: Number>(
        &self,
        metrics: &[T],
        early: &Ways,
        late: &Ways,
        out: &mut [u8],
    )
        requires metrics { length metrics.now ≡ self.now.steps * self.now.outputs }
        requires early { are_ways (trellis_of self.now) early.now }
        requires late { are_ways (trellis_of self.now) late.now }
        requires pairs { ArePairs (trellis_of self.now) early.now.rows late.now.rows }
        requires out { length out.old ≡ self.now.steps }
        ensures len { length out.new ≡ length out.old }
        ensures symbols { (j : ℕ) → j < self.now.steps
            → slice_index_or out.new j 0 ≡ decoded (trellis_of self.now) (map T.number metrics.now) 0 j }
    {
        let mut sums = [0; STATES];
        let mut after = [0; STATES];
        let mut are_late = [false; CHOICES];
        self.begin(&mut sums);
        self.go_pairs(metrics, early, late, &mut sums, &mut after, &mut are_late);
        match self.last_state(&sums) {
            Some(last) => self.trace_pairs(early, late, &are_late, last, out),
            None => no_symbols(out),
        }
    }
}
