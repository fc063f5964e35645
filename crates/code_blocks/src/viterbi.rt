//! The block that finds which symbols took a machine through metrics of what it gave.
ghost use Rattle.std.specs.Prelude.{◌≡◌, ◌≤◌, ◌≤ℤ◌, ◌<ℤ◌, ◌<◌, ◌↔◌, ◌*◌, ◌/◌, ◌%◌, ◌-◌, ◌+◌, ℤ, [], All, IfOk, IfErr, IfSome, IsNone, IsTrue, OnOk, length, map, pos, vec_len, vec_capacity};
ghost use Rattle.stream_model.specs.declared.vocabulary.ItemType.TheVariants as types;
ghost use Rattle.stream_model.specs.Lists.{listed};
ghost use Rattle.items.specs.Items.{type_of, numbers_of, spare_of};
ghost use Rattle.kind_model.specs.Trellis.{decoded, viterbi};
ghost use Rattle.viterbi_decoder.specs.Model.{trellis_of};
ghost use Rattle.code_blocks.specs.Trellises.{AreFewStates, AreNumbersBelow, AreSteps, AreTrellisTables, IsBadTrellis, IsState, IsTrellisRefusal, trellis_in};

use crate::state_machine::{are_states, narrow_states};
use block_parameters::{ParamFault, Parameter};
use block_trait::{Batch, Block, ByPace, Held, Shape, Single, ports, work_single};
use items::{ItemType, Items};
use numbers::Number;
use numbers::vectors::append_copies;
use std::alloc::Global;
use viterbi_decoder::Decoder;

/// A machine as its tables are given, and the blocks in which metrics of its outputs come.
#[derive(Clone, Copy, Debug)]
pub struct Trellis<'a> {
    /// How many symbols there are.
    pub symbols: u32,
    /// The next state for state `s` and symbol `x` at `s * symbols + x`.
    pub next: &'a [i64],
    /// How many outputs there are.
    pub outputs: u32,
    /// The number of the output for each of the next states.
    pub output: &'a [i64],
    /// How many steps a block has.
    pub steps: u32,
    /// The state that a block begins in, where it is known.
    pub start: Option<u32>,
    /// The state that a block ends in, where it is known.
    pub end: Option<u32>,
}

/// Of each block of metrics, one for each output at each step, the symbols of the path through a machine whose metrics
/// have the least sum. As GNU Radio's `trellis.viterbi_b` of whole metrics.
#[derive(Debug, Drop, PartialEq, Eq)]
pub struct Viterbi {
    item: ItemType,
    decoder: Decoder,
}

// Whether these are next states of whole rows of symbols, few enough to decode.
fn are_few_states(symbols: u32, next: &[i64]) -> bool
    requires { 1 ≤ symbols }
    ensures { IsTrue result ↔ AreFewStates symbols next.now }
{
    are_states(symbols, next) && next.len() as u32 / symbols <= 1_024
}

// Whether there is a number below a bound for each of so many.
fn are_below(bound: u32, count: usize, numbers: &[i64]) -> bool
    ensures { IsTrue result ↔ AreNumbersBelow bound count numbers.now }
{
    let end = i64::from(bound);
    numbers.len() == count && numbers.iter().all(|number| 0 <= *number && *number < end)
}

// Whether blocks of so many steps are small enough.
fn are_steps(steps: u32, outputs: u32, states: u32) -> bool
    requires some_outputs { 1 ≤ outputs }
    requires outputs { outputs ≤ 1024 }
    requires states { states ≤ 1024 }
    ensures { IsTrue result ↔ AreSteps steps outputs states }
{
    1 <= steps && steps <= 1_024 && steps * outputs <= 1_024 && steps * states <= 16_384
}

// Whether a state, where it is known, is one of so many.
fn is_state(known: Option<u32>, states: u32) -> bool
    ensures { IsTrue result ↔ IsState known states }
{
    match known {
        Some(state) => state < states,
        None => true,
    }
}

// How many states there are.
fn states_in(t: &Trellis<'_>) -> u32
    requires symbols { 1 ≤ t.now.symbols }
    requires few { length t.now.next.now ≤ 4096 }
    ensures { result ≡ length t.now.next.now / t.now.symbols }
{
    t.next.len() as u32 / t.symbols
}

// The first parameter that a trellis may not have.
fn first_bad(t: &Trellis<'_>) -> Option<Parameter>
    ensures bad { IfSome result (IsBadTrellis t.now) }
    ensures good { IsNone result ↔ AreTrellisTables t.now }
{
    if t.symbols < 1 || 256 < t.symbols {
        Some(Parameter::Symbols)
    } else if !are_few_states(t.symbols, t.next) {
        Some(Parameter::Next)
    } else if t.outputs < 1 || 1_024 < t.outputs {
        Some(Parameter::Outputs)
    } else if !are_below(t.outputs, t.next.len(), t.output) {
        Some(Parameter::Output)
    } else if !are_steps(t.steps, t.outputs, states_in(t)) {
        Some(Parameter::Steps)
    } else if !is_state(t.start, states_in(t)) {
        Some(Parameter::Start)
    } else if !is_state(t.end, states_in(t)) {
        Some(Parameter::End)
    } else {
        None
    }
}

impl Viterbi {
    ghost use Rattle.code_blocks.specs.Kinds.{viterbi_of};

    /// The block for metrics of a type, with copies of the tables. `BadParameter` names the first parameter that is
    /// outside its range, before any memory is asked for: `symbols` from 1 to 256; `next`, 1 to 4,096 states, a row of
    /// `symbols` for each of at most 1,024; `outputs` from 1 to 1,024; `output`, one of the outputs for each next
    /// state; `steps` from 1, so that a block has at most 1,024 metrics and 16,384 choices of a state at a step;
    /// `start` and `end`, a state or none. `Memory` only where the allocator refuses a copy.
    pub fn new(alloc: Global, item: ItemType, trellis: &Trellis<'_>) -> Result<Viterbi, ParamFault>
        ensures meaning { IfOk result (λ block. viterbi_of block ≡ viterbi item (trellis_in trellis.now)) }
        ensures range { OnOk result (AreTrellisTables trellis.now) }
        ensures fault { IfErr result (IsTrellisRefusal trellis.now) }
    {
        if let Some(parameter) = first_bad(trellis) {
            return Err(ParamFault::BadParameter(parameter));
        }
        Ok(Viterbi {
            item,
            decoder: Decoder::new(
                trellis.symbols,
                narrow_states(alloc, trellis.next)?,
                narrow_states(alloc, trellis.output)?,
                trellis.outputs,
                trellis.steps,
                trellis.start,
                trellis.end,
            ),
        })
    }
}

// Writes the symbols of each block over `out`.
fn write_symbols<T: Number>(decoder: &Decoder, count: usize, items: &[T], out: &mut [u8])
    requires items { length items.now ≡ decoder.now.steps * decoder.now.outputs * count }
    requires out { length out.old ≡ decoder.now.steps * count }
    ensures { map pos out.new ≡ listed (decoder.now.steps * count) (λ k. pos
        (decoded (trellis_of decoder.now) (map T.number items.now)
        (k / decoder.now.steps * (decoder.now.steps * decoder.now.outputs)) (k % decoder.now.steps))) }
{
    let taken = decoder.metrics() as usize;
    let given = decoder.steps() as usize;
    for block in 0..count {
        let from = block * taken;
        let at = block * given;
        decoder.decode(&items[from..from + taken], &mut out[at..at + given]);
    }
}

// Writes the symbols of each block into an empty `out` with room for them.
fn append_symbols<T: Number>(decoder: &Decoder, count: usize, items: &[T], out: &mut Vec<u8>)
    requires items { length items.now ≡ decoder.now.steps * decoder.now.outputs * count }
    requires empty { map pos out.old.items ≡ [] }
    requires room { decoder.now.steps * count ≤ vec_capacity out.old - vec_len out.old }
    ensures items { map pos out.new.items ≡ listed (decoder.now.steps * count)
        (λ k. pos (decoded (trellis_of decoder.now) (map T.number items.now)
        (k / decoder.now.steps * (decoder.now.steps * decoder.now.outputs)) (k % decoder.now.steps))) }
    ensures capacity { vec_capacity out.old ≤ vec_capacity out.new }
{
    append_copies(out, decoder.steps() as usize * count, 0);
    write_symbols(decoder, count, items, out);
}

// Gives the symbols of each block, at the type of the metrics.
fn give_symbols(decoder: &Decoder, count: usize, items: &Items, out: &mut Items)
    requires items { length (numbers_of items.now) ≡ decoder.now.steps * decoder.now.outputs * count }
    requires bytes { type_of out.old ≡ types.Byte }
    requires empty { numbers_of out.old ≡ [] }
    requires room { decoder.now.steps * count ≤ spare_of out.old }
    ensures item_type { type_of out.new ≡ type_of out.old }
    ensures numbers { numbers_of out.new ≡ listed (decoder.now.steps * count)
        (λ k. pos (decoded (trellis_of decoder.now) (numbers_of items.now)
        (k / decoder.now.steps * (decoder.now.steps * decoder.now.outputs)) (k % decoder.now.steps))) }
    ensures room { spare_of out.old ≤ spare_of out.new + length (numbers_of out.new) }
{
    match (items, out) {
        (Items::Byte(items), Items::Byte(out)) => append_symbols::<u8>(decoder, count, items, out),
        (Items::Short(items), Items::Byte(out)) => append_symbols::<i16>(
            decoder, count, items, out,
        ),
        (Items::Int(items), Items::Byte(out)) => append_symbols::<i32>(decoder, count, items, out),
        _ => unreachable!(),
    }
}

impl Single for Viterbi {
    ghost use Rattle.std.specs.Prelude.{refl};
    ghost use Rattle.code_blocks.specs.Kinds.{viterbi_of};

    ghost equation = { viterbi_of };

    fn fill(&self, batch: &Batch<'_>, out: &mut Items) -> u64 {
        give_symbols(&self.decoder, batch.count as usize, batch.window, out);
        0
    }

    ghost single = { λ b. record { in_least = refl; in_most = refl; out_least = refl; out_most = refl } };
}

impl Block for Viterbi {
    ghost use Rattle.code_blocks.specs.Kinds.{viterbi_of, viterbi_of-lawful, viterbi_of-same};

    ghost meaning = { viterbi_of };

    type Places = ByPace;

    fn shape(&self, _input: usize) -> Shape<'_> {
        let metrics = ports(1, self.item);
        let symbols = ports(1, ItemType::Byte);
        Shape::at_rate(
            metrics,
            symbols,
            self.decoder.metrics(),
            self.decoder.steps(),
        )
    }

    fn work(
        &self,
        state: u64,
        first: u64,
        count: u64,
        windows: &[Items],
        held: &[Held],
        out: &mut [Items],
    ) -> u64 {
        work_single(self, state, first, count, windows, held, out)
    }

    ghost lawful = { viterbi_of-lawful };

    ghost same = { viterbi_of-same };
}
