//! The sums of the metrics of paths.
ghost use Rattle.std.specs.Prelude.{◌≡◌, ◌+◌, ◌*◌, ◌/◌, ◌<◌, ◌≤◌, ℕ, ℤ, ◌+ℤ◌, suc, pos, List, None, length, map, slice_index_or, if◌then◌else◌};
ghost use Rattle.stream_model.specs.Lists.{item};
ghost use Rattle.kind_model.specs.Trellis.{states_of, may_be};
ghost use Rattle.viterbi_decoder.specs.Found.{found, behind, far, sum_in, is_less, IsWithin, IsNumber, IsSum, AreSums};

use crate::decoder::Decoder;
use numbers::Number;

// What stands for the sum of no path. With the metrics of a block added it is still more than the sum of any.
const FAR: i64 = 1 << 62;

// More than the sum of any path, and less than what stands for none.
const BETWEEN: i64 = 1 << 61;

/// Whether a state may be the one that is known.
fn may_be(known: Option<u32>, state: usize) -> bool
    ensures { result ≡ may_be known state }
{
    match known {
        Some(known) => known as usize == state,
        None => true,
    }
}

/// Whether there is a first sum, and it is less than the second, if there is one.
pub(crate) fn is_less(sum: Option<i64>, than: Option<i64>) -> bool
    ensures { result ≡ is_less sum than }
{
    match (sum, than) {
        (Some(sum), Some(than)) => sum < than,
        (Some(_), None) => true,
        (None, _) => false,
    }
}

// The sum of a path without a step that begins in a state.
fn first_sum(start: Option<u32>, state: usize) -> i64
    ensures { result ≡ (if may_be start state then pos 0 else far) }
{
    if may_be(start, state) { 0 } else { FAR }
}

// The sum that a number stands for, where it is one.
fn sum_in(sum: i64) -> Option<i64>
    ensures { result ≡ sum_in sum }
{
    if sum < BETWEEN { Some(sum) } else { None }
}

// The sum with one metric more.
#[inline(always)]
pub(crate) fn added(sum: i64, metric: i64) -> i64
    requires sum { IsNumber sum }
    requires metric { IsWithin 1 metric }
    ensures { result ≡ sum +ℤ metric }
{
    sum + metric
}

impl Decoder {
    ghost use Rattle.viterbi_decoder.specs.Model.{trellis_of};

    // The sums of the paths without a step.
    pub(crate) fn begin(&self, sums: &mut [i64])
        requires { states_of (trellis_of self.now) ≤ length sums.old }
        ensures len { length sums.new ≡ length sums.old }
        ensures sums { (x : List ℤ) → AreSums (trellis_of self.now) x 0 sums.new }
    {
        for state in 0..self.states as usize {
            sums[state] = first_sum(self.start, state);
        }
    }

    // No sums, as before the first row.
    pub(crate) fn clear(&self, sums: &mut [i64])
        requires { states_of (trellis_of self.now) ≤ length sums.old }
        ensures len { length sums.new ≡ length sums.old }
        ensures none { (s : ℕ) → s < states_of (trellis_of self.now) → slice_index_or sums.new s (pos 0) ≡ far }
    {
        for state in 0..self.states as usize {
            sums[state] = FAR;
        }
    }

    // Copies the sums of all states.
    pub(crate) fn keep(&self, from: &[i64], to: &mut [i64])
        requires from { states_of (trellis_of self.now) ≤ length from.now }
        requires to { states_of (trellis_of self.now) ≤ length to.old }
        ensures len { length to.new ≡ length to.old }
        ensures same { (s : ℕ) → s < states_of (trellis_of self.now) → slice_index_or to.new s (pos 0)
            ≡ slice_index_or from.now s (pos 0) }
    {
        for state in 0..self.states as usize {
            to[state] = from[state];
        }
    }

    // The metric of an output at a step.
    #[inline(always)]
    pub(crate) fn metric_of<T: Number>(&self, metrics: &[T], step: usize, output: usize) -> i64
        requires metrics { length metrics.now ≡ self.now.steps * self.now.outputs }
        requires step { step < self.now.steps }
        requires output { output < self.now.outputs }
        ensures value { result ≡ item (map T.number metrics.now) (0 + step * self.now.outputs + output) }
        ensures within { IsWithin 1 result }
    {
        metrics[step * self.outputs as usize + output].widen()
    }

    // The sum of the path found to the state that a row leads from, with this row behind it.
    #[inline(always)]
    pub(crate) fn sum_behind<T: Number>(
        &self,
        metrics: &[T],
        step: usize,
        row: usize,
        sum: i64,
    ) -> i64
        requires metrics { length metrics.now ≡ self.now.steps * self.now.outputs }
        requires step { step < self.now.steps }
        requires row { row < length self.now.next.items }
        requires sum { IsSum (trellis_of self.now) (map T.number metrics.now) step
            (found (trellis_of self.now) (map T.number metrics.now) step (row / self.now.symbols)) sum }
        ensures { IsSum (trellis_of self.now) (map T.number metrics.now) (suc step)
            (behind (trellis_of self.now) (map T.number metrics.now) step row) result }
    {
        let output = usize::from(self.output[row]);
        added(sum, self.metric_of(metrics, step, output))
    }

    // What the path found to a state that may be the last costs, where there is one.
    pub(crate) fn end_sum(&self, sums: &[i64], state: usize) -> Option<i64>
        requires { state < length sums.now }
        ensures { result ≡ (if may_be self.now.end state then sum_in (slice_index_or sums.now state
            (pos 0)) else None) }
    {
        if may_be(self.end, state) {
            sum_in(sums[state])
        } else {
            None
        }
    }
}
