//! The symbols of the path found for a block.
ghost use Rattle.std.specs.Prelude.{◌≡◌, ◌*◌, ◌<◌, ◌≤◌, ℕ, ℤ, List, Some, length, slice_index_or};
ghost use Rattle.kind_model.specs.Trellis.{states_of, symbol_at};
ghost use Rattle.viterbi_decoder.specs.Found.{found, row_in, row_of_two, AreLastRows, AreRows};

use crate::decoder::Decoder;
use crate::steps::chosen;
use crate::ways::Ways;

impl Decoder {
    ghost use Rattle.viterbi_decoder.specs.Model.{trellis_of};
    ghost use Rattle.viterbi_decoder.specs.Ways.{are_ways};

    // Goes back along the path to its last state, and writes its symbols.
    pub(crate) fn trace(&self, rows: &[u16], last: usize, out: &mut [u8])
        requires room { self.now.steps * states_of (trellis_of self.now) ≤ length rows.now }
        requires rows { AreRows (trellis_of self.now) rows.now }
        requires last { last < states_of (trellis_of self.now) }
        requires out { length out.old ≡ self.now.steps }
        ensures len { length out.new ≡ length out.old }
        ensures symbols { (x : List ℤ) (path : List ℕ) → AreLastRows (trellis_of self.now) x self.now.steps
            (row_in (trellis_of self.now) rows.now)
            → found (trellis_of self.now) x self.now.steps last ≡ Some path
            → (j : ℕ) → j < self.now.steps → slice_index_or out.new j 0 ≡ symbol_at (trellis_of self.now) (Some path)
            j }
    {
        let states = self.states as usize;
        let symbols = self.symbols as usize;
        let steps = self.steps as usize;
        let mut state = last;
        for back in 0..steps {
            let step = steps - 1 - back;
            let row = usize::from(rows[step * states + state]);
            out[step] = (row % symbols) as u8;
            state = row / symbols;
        }
    }

    // Goes back along the path to its last state, where two rows lead to each, and writes its symbols.
    pub(crate) fn trace_pairs(
        &self,
        early: &Ways,
        late: &Ways,
        are_late: &[bool],
        last: usize,
        out: &mut [u8],
    )
        requires early { are_ways (trellis_of self.now) early.now }
        requires late { are_ways (trellis_of self.now) late.now }
        requires room { self.now.steps * states_of (trellis_of self.now) ≤ length are_late.now }
        requires last { last < states_of (trellis_of self.now) }
        requires out { length out.old ≡ self.now.steps }
        ensures len { length out.new ≡ length out.old }
        ensures symbols { (x : List ℤ) (path : List ℕ) → AreLastRows (trellis_of self.now) x self.now.steps
            (row_of_two (trellis_of self.now) early.now.rows late.now.rows are_late.now)
            → found (trellis_of self.now) x self.now.steps last ≡ Some path
            → (j : ℕ) → j < self.now.steps
            → slice_index_or out.new j 0 ≡ symbol_at (trellis_of self.now) (Some path) j }
    {
        let states = self.states as usize;
        let steps = self.steps as usize;
        let mut state = last;
        for back in 0..steps {
            let step = steps - 1 - back;
            let is_late = are_late[step * states + state];
            out[step] = chosen(is_late, late.symbols[state], early.symbols[state]);
            state = usize::from(chosen(is_late, late.from[state], early.from[state]));
        }
    }
}
