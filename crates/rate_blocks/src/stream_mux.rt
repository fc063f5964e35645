//! The block whose inputs take turns of several items.
ghost use Rattle.std.specs.Prelude.{◌≡◌, ◌≤◌, ◌<◌, ◌↔◌, ◌*◌, All, pos, ◌≤ℤ◌, IsTrue, IsOk, IfOk, IfErr, length, take, sum};
ghost use Rattle.kind_model.specs.Rates.{IsMux, stream_mux};
ghost use Rattle.rate_blocks.specs.Lengths.{AreLengths, unsigned};

use crate::turns::{TakesTurns, Turn, merge_turns};
use block_parameters::{ParamFault, Parameter};
use block_trait::{Block, ByPace, Held, Pace, Shape, ports};
use items::{ItemType, Items};

/// The most inputs.
const MOST: usize = 16;

/// So many items of the first input, then so many of the next, and so on, round after round, as GNU Radio's
/// `stream_mux`, which gives the beginning of a round too: here only whole rounds are given. A tag stays on its item.
#[derive(Debug, Drop, PartialEq, Eq)]
pub struct StreamMux {
    item: ItemType,
    /// How many items each input gives in a round; of this list only the first `count` are used.
    lengths: [u32; MOST],
    count: usize,
    ghost counted: { count ≤ 16 },
    ghost whole: { length lengths ≡ 16 },
    ghost is_mux: { IsMux (take count lengths) },
}

// Whether there are 1 to 16 lengths, each of 1 to 1,024.
fn are_in_range(lengths: &[i64]) -> bool
    ensures { IsTrue result ↔ ((1 ≤ length lengths.now) × (length lengths.now ≤ 16)
        × All (λ z. (pos 1 ≤ℤ z) × (z ≤ℤ pos 1024)) lengths.now) }
{
    !lengths.is_empty() && lengths.len() <= MOST && lengths.iter().all(|n| 1 <= *n && *n <= 1_024)
}

// The sum of a few lengths.
fn sum_of(lengths: &[u32]) -> u64
    requires few { length lengths.now ≤ 16 }
    requires small { All (λ l. l ≤ 1024) lengths.now }
    ensures { result ≡ sum lengths.now }
{
    let mut sum = 0;
    for length in lengths {
        sum += u64::from(*length);
    }
    sum
}

// The lengths without their signs.
fn counts(lengths: &[i64]) -> [u32; MOST]
    requires few { length lengths.now ≤ 16 }
    requires range { All (λ z. (pos 1 ≤ℤ z) × (z ≤ℤ pos 1024)) lengths.now }
    ensures whole { length result ≡ 16 }
    ensures counts { take (length lengths.now) result ≡ unsigned lengths.now }
{
    let mut counts = [0; MOST];
    for (p, length) in lengths.iter().enumerate() {
        counts[p] = *length as u32;
    }
    counts
}

impl StreamMux {
    ghost use Rattle.rate_blocks.specs.Mux.{lengths_of, stream_mux_of};

    /// The block with an input for each of these lengths in items; `BadParameter` where they are not 1 to 16 numbers of
    /// 1 or more, at most 1,024 together.
    pub fn new(item: ItemType, lengths: &[i64]) -> Result<StreamMux, ParamFault>
        ensures meaning { IfOk result (λ block. stream_mux_of block ≡ stream_mux item (unsigned lengths.now)) }
        ensures range { IsOk result ↔ AreLengths lengths.now }
        ensures err { IfErr result (λ fault. fault ≡ ParamFault.BadParameter Parameter.Lengths) }
    {
        if !are_in_range(lengths) {
            return Err(ParamFault::BadParameter(Parameter::Lengths));
        }
        let count = lengths.len();
        let lengths = counts(lengths);
        if 1_024 < sum_of(&lengths[..count]) {
            return Err(ParamFault::BadParameter(Parameter::Lengths));
        }
        Ok(StreamMux {
            item,
            lengths,
            count,
        })
    }

    // How many items a round has.
    fn all(&self) -> u64
        ensures { result ≡ sum (lengths_of self.now) }
    {
        sum_of(&self.lengths[..self.count])
    }

    // How many items of a round come before those of an input, of an input that is not there all.
    fn before(&self, input: usize) -> u64
        ensures { result ≡ sum (take input (lengths_of self.now)) }
    {
        sum_of(&self.lengths[..input.min(self.count)])
    }
}

impl TakesTurns for StreamMux {
    ghost use Rattle.rate_blocks.specs.Mux.{lengths_of};

    ghost lengths = { lengths_of };

    fn turn(&self, rounds: usize, port: usize) -> Turn {
        Turn {
            rounds,
            length: self.lengths[port] as usize,
            before: self.before(port) as usize,
            all: self.all() as usize,
        }
    }
}

impl Block for StreamMux {
    ghost use Rattle.rate_blocks.specs.Mux.{stream_mux_of, stream_mux_of-lawful, stream_mux_of-same};

    ghost meaning = { stream_mux_of };

    type Places = ByPace;

    fn shape(&self, input: usize) -> Shape<'_> {
        let all = self.all();
        let taken = if input < self.count {
            u64::from(self.lengths[input])
        } else {
            1
        };
        Shape {
            pace: Pace::Turns(taken, all, self.before(input)),
            ..Shape::at_rate(
                ports(self.count as u32, self.item),
                ports(1, self.item),
                1,
                all,
            )
        }
    }

    fn work(
        &self,
        _state: u64,
        _first: u64,
        count: u64,
        windows: &[Items],
        _held: &[Held],
        out: &mut [Items],
    ) -> u64 {
        let total = self.all() * count;
        merge_turns(self, count as usize, total as usize, windows, &mut out[0]);
        0
    }

    ghost lawful = { stream_mux_of-lawful };

    ghost same = { stream_mux_of-same };
}
