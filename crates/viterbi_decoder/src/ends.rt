//! The last state of the path found for a block.
ghost use Rattle.std.specs.Prelude.{◌≡◌, ◌<◌, ◌≤◌, ℕ, ℤ, List, Some, None, IfSome, IfNone, length};
ghost use Rattle.kind_model.specs.Trellis.{states_of};
ghost use Rattle.viterbi_decoder.specs.Found.{found, found_below, AreSums};

use crate::decoder::Decoder;
use crate::sums::is_less;

impl Decoder {
    ghost use Rattle.viterbi_decoder.specs.Model.{trellis_of};

    // The last state of the path found for a block, where there is one.
    pub(crate) fn last_state(&self, sums: &[i64]) -> Option<usize>
        requires { states_of (trellis_of self.now) ≤ length sums.now }
        ensures none { IfNone result ((x : List ℤ) → AreSums (trellis_of self.now) x self.now.steps sums.now
            → found_below (trellis_of self.now) x (states_of (trellis_of self.now)) ≡ None) }
        ensures within { IfSome result (λ last. last < states_of (trellis_of self.now)) }
        ensures some { IfSome result (λ last. (x : List ℤ) → AreSums (trellis_of self.now) x self.now.steps sums.now
            → (path : List ℕ) × (found (trellis_of self.now) x self.now.steps last ≡ Some path)
            × (found_below (trellis_of self.now) x (states_of (trellis_of self.now)) ≡ Some path)) }
    {
        let mut last = 0;
        let mut least = None;
        for state in 0..self.states as usize {
            let sum = self.end_sum(sums, state);
            if is_less(sum, least) {
                least = sum;
                last = state;
            }
        }
        match least {
            Some(_) => Some(last),
            None => None,
        }
    }
}
