//! The ways to each state with one step more, in machines in which two rows lead to each state, as in those of binary
//! codes.
ghost use Rattle.std.specs.Prelude.{◌≡◌, ◌+◌, ◌≤◌, ◌<◌, ℕ, IsTrue, length, slice_index_or};
ghost use Rattle.kind_model.specs.Trellis.{states_of};
ghost use Rattle.viterbi_decoder.specs.Found.{AreRows, AreListed, ArePairs};

use crate::decoder::{Decoder, STATES};

/// One of the rows that lead to each state: the state that it leads from, its output and its symbol.
#[derive(Drop)]
pub(crate) struct Ways {
    pub(crate) rows: [u16; STATES],
    pub(crate) from: [u16; STATES],
    pub(crate) outputs: [u16; STATES],
    pub(crate) symbols: [u8; STATES],
}

// One more than a count of rows.
#[inline(always)]
fn one_more(count: u16, row: usize) -> u16
    requires few { count ≤ row }
    requires row { row < 4096 }
    ensures { result ≡ count + 1 }
{
    count + 1
}

impl Decoder {
    ghost use Rattle.viterbi_decoder.specs.Model.{trellis_of};
    ghost use Rattle.viterbi_decoder.specs.Ways.{are_ways};

    // Lists the last two rows that lead to each state, and counts them all.
    fn list_rows(&self, counts: &mut [u16], early: &mut [u16], late: &mut [u16])
        requires counts { states_of (trellis_of self.now) ≤ length counts.old }
        requires early { states_of (trellis_of self.now) ≤ length early.old }
        requires late { states_of (trellis_of self.now) ≤ length late.old }
        requires listed { AreListed (trellis_of self.now) 0 counts.old early.old late.old }
        requires early_rows { AreRows (trellis_of self.now) early.old }
        requires late_rows { AreRows (trellis_of self.now) late.old }
        ensures counts_len { length counts.new ≡ length counts.old }
        ensures early_len { length early.new ≡ length early.old }
        ensures late_len { length late.new ≡ length late.old }
        ensures listed { AreListed (trellis_of self.now) (length self.now.next.items) counts.new early.new late.new }
        ensures early_rows { AreRows (trellis_of self.now) early.new }
        ensures late_rows { AreRows (trellis_of self.now) late.new }
    {
        for row in 0..self.next.len() {
            let to = usize::from(self.next[row]);
            early[to] = late[to];
            late[to] = row as u16;
            counts[to] = one_more(counts[to], row);
        }
    }

    // Whether each count of a state's rows is two.
    fn are_twos(&self, counts: &[u16]) -> bool
        requires { states_of (trellis_of self.now) ≤ length counts.now }
        ensures { IsTrue result → (s : ℕ) → s < states_of (trellis_of self.now) → slice_index_or counts.now s 0 ≡ 2 }
    {
        for state in 0..self.states as usize {
            if counts[state] != 2 {
                return false;
            }
        }
        true
    }

    // Lists the two rows that lead to each state, and tells whether there are two.
    pub(crate) fn pair(&self, counts: &mut [u16], early: &mut [u16], late: &mut [u16]) -> bool
        requires counts { states_of (trellis_of self.now) ≤ length counts.old }
        requires early { states_of (trellis_of self.now) ≤ length early.old }
        requires late { states_of (trellis_of self.now) ≤ length late.old }
        requires listed { AreListed (trellis_of self.now) 0 counts.old early.old late.old }
        requires early_rows { AreRows (trellis_of self.now) early.old }
        requires late_rows { AreRows (trellis_of self.now) late.old }
        ensures early_len { length early.new ≡ length early.old }
        ensures late_len { length late.new ≡ length late.old }
        ensures early_rows { AreRows (trellis_of self.now) early.new }
        ensures late_rows { AreRows (trellis_of self.now) late.new }
        ensures pairs { IsTrue result → ArePairs (trellis_of self.now) early.new late.new }
    {
        self.list_rows(counts, early, late);
        self.are_twos(counts)
    }

    // The ways by these rows, one to each state.
    pub(crate) fn ways(&self, rows: [u16; STATES]) -> Ways
        requires { AreRows (trellis_of self.now) rows }
        ensures rows { result.rows ≡ rows }
        ensures ways { are_ways (trellis_of self.now) result }
    {
        let mut from = [0; STATES];
        let mut outputs = [0; STATES];
        let mut symbols = [0; STATES];
        for state in 0..self.states as usize {
            let row = u32::from(rows[state]);
            from[state] = (row / self.symbols) as u16;
            outputs[state] = self.output[row as usize];
            symbols[state] = (row % self.symbols) as u8;
        }
        Ways {
            rows,
            from,
            outputs,
            symbols,
        }
    }
}
