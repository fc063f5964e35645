//! Machines, and how a block of metrics is decoded: step by step the cheapest path to each state, and then back along
//! the one that is left.
ghost use Rattle.std.specs.Prelude.{◌≡◌, ◌*◌, ◌<◌, ◌≤◌, ℕ, ℤ, List, Option, length, map, slice_index_or};
ghost use Rattle.kind_model.specs.Trellis.{IsTrellis, decoded, states_of};
ghost use Rattle.viterbi_decoder.specs.Found.{trellis};

use numbers::Number;

/// The greatest number of states.
pub(crate) const STATES: usize = 1_024;

/// The greatest number of choices of a block, one at each step for each state.
pub(crate) const CHOICES: usize = 16_384;

// Writes zeros, where there is no path.
pub(crate) fn no_symbols(out: &mut [u8])
    ensures len { length out.new ≡ length out.old }
    ensures none { (j : ℕ) → j < length out.old → slice_index_or out.new j 0 ≡ 0 }
{
    for j in 0..out.len() {
        out[j] = 0;
    }
}

/// A machine, and the blocks in which metrics of its outputs come.
#[derive(Debug, Drop, PartialEq, Eq)]
pub struct Decoder {
    pub(crate) symbols: u32,
    pub(crate) states: u32,
    pub(crate) next: Vec<u16>,
    pub(crate) output: Vec<u16>,
    pub(crate) outputs: u32,
    pub(crate) steps: u32,
    pub(crate) start: Option<u32>,
    pub(crate) end: Option<u32>,
    ghost is: { IsTrellis (trellis symbols next.items output.items outputs steps start end) },
    ghost states_are: { states ≡ states_of (trellis symbols next.items output.items outputs steps start end) },
}

impl Decoder {
    ghost use Rattle.viterbi_decoder.specs.Model.{trellis_of};

    /// The decoder of a machine: `next` and `output` have a row of `symbols` for each state, the next state and the
    /// number of the output. A block has `steps`, each with a metric of each of the `outputs`; it begins in the state
    /// `start` and ends in the state `end`, where these are known.
    pub fn new(
        symbols: u32,
        next: Vec<u16>,
        output: Vec<u16>,
        outputs: u32,
        steps: u32,
        start: Option<u32>,
        end: Option<u32>,
    ) -> Decoder
        requires { IsTrellis (trellis symbols next.items output.items outputs steps start end) }
        ensures { trellis_of result ≡ trellis symbols next.items output.items outputs steps start end }
    {
        let states = next.len() as u32 / symbols;
        Decoder {
            symbols,
            states,
            next,
            output,
            outputs,
            steps,
            start,
            end,
        }
    }

    /// How many steps a block has, and symbols.
    pub fn steps(&self) -> u64
        ensures { result ≡ self.now.steps }
    {
        u64::from(self.steps)
    }

    /// How many metrics a block has.
    pub fn metrics(&self) -> u64
        ensures { result ≡ self.now.steps * self.now.outputs }
    {
        u64::from(self.steps) * u64::from(self.outputs)
    }

    /// Writes the symbols of a block of metrics: those of the first of the paths whose metrics have the least sum, and
    /// zeros where no path goes from the known start to the known end.
    pub fn decode<T: Number>(&self, metrics: &[T], out: &mut [u8])
        requires metrics { length metrics.now ≡ self.now.steps * self.now.outputs }
        requires out { length out.old ≡ self.now.steps }
        ensures len { length out.new ≡ length out.old }
        ensures symbols { (j : ℕ) → j < self.now.steps
            → slice_index_or out.new j 0 ≡ decoded (trellis_of self.now) (map T.number metrics.now) 0 j }
    {
        let mut counts = [0; STATES];
        let mut early = [0; STATES];
        let mut late = [0; STATES];
        if self.pair(&mut counts, &mut early, &mut late) {
            self.decode_pairs(metrics, &self.ways(early), &self.ways(late), out);
        } else {
            self.decode_rows(metrics, out);
        }
    }
}
