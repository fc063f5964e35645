//! Steps of all paths at once: row by row, each path found is kept where it costs less than those before it.
ghost use Rattle.std.specs.Prelude.{◌≡◌, ◌+◌, ◌*◌, ◌/◌, ◌<◌, ◌≤◌, ℕ, ℤ, suc, List, length, map, slice_index_or, if◌then◌else◌};
ghost use Rattle.kind_model.specs.Trellis.{decoded, states_of};
ghost use Rattle.viterbi_decoder.specs.Found.{found, row_in, IsSum, AreSums, AreLastRows, AreRows, AreHeld};

use crate::decoder::{CHOICES, Decoder, STATES, no_symbols};
use numbers::Number;

// The first of two values or the second. It is written in any case: which path costs less is hard for a processor to
// predict.
#[inline(always)]
pub(crate) fn chosen<T: Copy>(is_first: bool, first: T, second: T) -> T
    ensures { result ≡ (if is_first then first else second) }
{
    if is_first { first } else { second }
}

impl Decoder {
    ghost use Rattle.viterbi_decoder.specs.Model.{trellis_of};

    // Finds the paths with one step more whose last row is this one, where they cost less than those before it.
    #[inline(always)]
    fn take_row<T: Number>(
        &self,
        metrics: &[T],
        step: usize,
        row: usize,
        sum: i64,
        after: &mut [i64],
        rows: &mut [u16],
    )
        requires metrics { length metrics.now ≡ self.now.steps * self.now.outputs }
        requires step { step < self.now.steps }
        requires row { row < length self.now.next.items }
        requires sum { IsSum (trellis_of self.now) (map T.number metrics.now) step
            (found (trellis_of self.now) (map T.number metrics.now) step (row / self.now.symbols)) sum }
        requires long { states_of (trellis_of self.now) ≤ length after.old }
        requires room { self.now.steps * states_of (trellis_of self.now) ≤ length rows.old }
        requires held { AreHeld (trellis_of self.now) (map T.number metrics.now) step row after.old rows.old }
        requires rows { AreRows (trellis_of self.now) rows.old }
        ensures len { length after.new ≡ length after.old }
        ensures rows_len { length rows.new ≡ length rows.old }
        ensures held { AreHeld (trellis_of self.now) (map T.number metrics.now) step (row + 1) after.new rows.new }
        ensures stays { (i : ℕ) → i < step * states_of (trellis_of self.now) → slice_index_or rows.new i 0
            ≡ slice_index_or rows.old i 0 }
        ensures rows { AreRows (trellis_of self.now) rows.new }
    {
        let sum = self.sum_behind(metrics, step, row, sum);
        let to = usize::from(self.next[row]);
        let place = step * self.states as usize + to;
        let is_less = sum < after[to];
        after[to] = chosen(is_less, sum, after[to]);
        rows[place] = chosen(is_less, row as u16, rows[place]);
    }

    // Finds the paths with one step more whose last row is one of this state, where they cost less than those before
    // it.
    fn take_state<T: Number>(
        &self,
        metrics: &[T],
        step: usize,
        state: usize,
        sum: i64,
        after: &mut [i64],
        rows: &mut [u16],
    )
        requires metrics { length metrics.now ≡ self.now.steps * self.now.outputs }
        requires step { step < self.now.steps }
        requires state { state < states_of (trellis_of self.now) }
        requires sum { IsSum (trellis_of self.now) (map T.number metrics.now) step
            (found (trellis_of self.now) (map T.number metrics.now) step state) sum }
        requires long { states_of (trellis_of self.now) ≤ length after.old }
        requires room { self.now.steps * states_of (trellis_of self.now) ≤ length rows.old }
        requires held { AreHeld (trellis_of self.now) (map T.number metrics.now) step (state * self.now.symbols)
            after.old rows.old }
        requires rows { AreRows (trellis_of self.now) rows.old }
        ensures len { length after.new ≡ length after.old }
        ensures rows_len { length rows.new ≡ length rows.old }
        ensures held { AreHeld (trellis_of self.now) (map T.number metrics.now) step ((state + 1) * self.now.symbols)
            after.new rows.new }
        ensures stays { (i : ℕ) → i < step * states_of (trellis_of self.now) → slice_index_or rows.new i 0
            ≡ slice_index_or rows.old i 0 }
        ensures rows { AreRows (trellis_of self.now) rows.new }
    {
        let symbols = self.symbols as usize;
        for symbol in 0..symbols {
            self.take_row(metrics, step, state * symbols + symbol, sum, after, rows);
        }
    }

    // Finds the paths with one step more: their sums, and their last rows.
    fn step<T: Number>(
        &self,
        metrics: &[T],
        step: usize,
        before: &[i64],
        after: &mut [i64],
        rows: &mut [u16],
    )
        requires metrics { length metrics.now ≡ self.now.steps * self.now.outputs }
        requires step { step < self.now.steps }
        requires long { states_of (trellis_of self.now) ≤ length before.now }
        requires long_after { states_of (trellis_of self.now) ≤ length after.old }
        requires room { self.now.steps * states_of (trellis_of self.now) ≤ length rows.old }
        requires sums { AreSums (trellis_of self.now) (map T.number metrics.now) step before.now }
        requires rows { AreRows (trellis_of self.now) rows.old }
        requires last { AreLastRows (trellis_of self.now) (map T.number metrics.now) step
            (row_in (trellis_of self.now) rows.old) }
        ensures len { length after.new ≡ length after.old }
        ensures rows_len { length rows.new ≡ length rows.old }
        ensures sums { AreSums (trellis_of self.now) (map T.number metrics.now) (suc step) after.new }
        ensures last { AreLastRows (trellis_of self.now) (map T.number metrics.now) (suc step)
            (row_in (trellis_of self.now) rows.new) }
        ensures rows { AreRows (trellis_of self.now) rows.new }
    {
        self.clear(after);
        for state in 0..self.states as usize {
            self.take_state(metrics, step, state, before[state], after, rows);
        }
    }

    // Finds the paths of a block, step by step.
    fn go<T: Number>(&self, metrics: &[T], sums: &mut [i64], after: &mut [i64], rows: &mut [u16])
        requires metrics { length metrics.now ≡ self.now.steps * self.now.outputs }
        requires long { states_of (trellis_of self.now) ≤ length sums.old }
        requires long_after { states_of (trellis_of self.now) ≤ length after.old }
        requires room { self.now.steps * states_of (trellis_of self.now) ≤ length rows.old }
        requires sums { AreSums (trellis_of self.now) (map T.number metrics.now) 0 sums.old }
        requires rows { AreRows (trellis_of self.now) rows.old }
        ensures len { length sums.new ≡ length sums.old }
        ensures rows_len { length rows.new ≡ length rows.old }
        ensures sums { AreSums (trellis_of self.now) (map T.number metrics.now) self.now.steps sums.new }
        ensures last { AreLastRows (trellis_of self.now) (map T.number metrics.now) self.now.steps
            (row_in (trellis_of self.now) rows.new) }
        ensures rows { AreRows (trellis_of self.now) rows.new }
    {
        for step in 0..self.steps as usize {
            self.step(metrics, step, sums, after, rows);
            self.keep(after, sums);
        }
    }

    // Writes the symbols of a block of metrics, by all rows in turn.
    pub(crate) fn decode_rows<T: Number>(&self, metrics: &[T], out: &mut [u8])
        requires metrics { length metrics.now ≡ self.now.steps * self.now.outputs }
        requires out { length out.old ≡ self.now.steps }
        ensures len { length out.new ≡ length out.old }
        ensures symbols { (j : ℕ) → j < self.now.steps
            → slice_index_or out.new j 0 ≡ decoded (trellis_of self.now) (map T.number metrics.now) 0 j }
    {
        let mut sums = [0; STATES];
        let mut after = [0; STATES];
        let mut rows = [0; CHOICES];
        self.begin(&mut sums);
        self.go(metrics, &mut sums, &mut after, &mut rows);
        match self.last_state(&sums) {
            Some(last) => self.trace(&rows, last, out),
            None => no_symbols(out),
        }
    }
}
