//! The block that goes from state to state and gives an item for each.
ghost use Rattle.std.specs.Prelude.{◌≡◌, ◌≤◌, ◌≤ℤ◌, ◌<ℤ◌, ◌<◌, ◌↔◌, ◌/◌, ◌-◌, ◌+◌, ℤ, [], All, IfOk, IfErr, IfSome, IsNone, IsTrue, OnOk, length, map, pos, unsigned_abs, vec_len, vec_capacity};
ghost use Rattle.stream_model.specs.declared.vocabulary.ItemType.TheVariants.{Byte};
ghost use Rattle.items.specs.Items.{type_of, numbers_of, spare_of};
ghost use Rattle.kind_model.specs.Codes.{IsMachine, state_after, state_machine};
ghost use Rattle.code_blocks.specs.Machines.{AreOutputs, AreStates, AreTables, IsBadTable, IsTableRefusal, given_from};

use block_parameters::{ParamFault, Parameter};
use block_trait::{Batch, Block, ByPace, Held, Shape, Single, work_single};
use items::{ItemType, Items};
use numbers::vectors::narrowed;
use std::alloc::{AllocError, Global};

/// A machine that goes from state to state: for each byte it gives what a table has for its state and the byte, and
/// goes on to the state that another has for them. Bytes count modulo `symbols`. Convolutional codes are such machines.
/// As GNU Radio's `trellis.encoder_bb` by the tables of an `fsm`.
#[derive(Debug, Drop, PartialEq, Eq)]
pub struct StateMachine {
    symbols: u32,
    next: Vec<u16>,
    output: Vec<u8>,
    start: u32,
    ghost is: { IsMachine symbols next.items (map pos output.items) start },
}

// Whether these are next states of whole rows of symbols.
pub(crate) fn are_states(symbols: u32, next: &[i64]) -> bool
    requires { 1 ≤ symbols }
    ensures { IsTrue result ↔ AreStates symbols next.now }
{
    let count = next.len();
    if count < 1 || 4_096 < count {
        return false;
    }
    let states = count as u32 / symbols;
    let end = i64::from(states);
    states * symbols == count as u32 && next.iter().all(|state| 0 <= *state && *state < end)
}

// Whether there is a byte for each next state.
fn are_outputs(next: &[i64], output: &[i64]) -> bool
    ensures { IsTrue result ↔ AreOutputs next.now output.now }
{
    output.len() == next.len() && output.iter().all(|byte| 0 <= *byte && *byte <= 255)
}

// The first parameter that a machine may not have.
fn first_bad(symbols: u32, next: &[i64], output: &[i64], start: u32) -> Option<Parameter>
    ensures bad { IfSome result (IsBadTable symbols next.now output.now start) }
    ensures good { IsNone result ↔ AreTables symbols next.now output.now start }
{
    if symbols < 1 || 4_096 < symbols {
        Some(Parameter::Symbols)
    } else if !are_states(symbols, next) {
        Some(Parameter::Next)
    } else if !are_outputs(next, output) {
        Some(Parameter::Output)
    } else if next.len() as u32 / symbols <= start {
        Some(Parameter::Init)
    } else {
        None
    }
}

// States of which there are at most 4,096, in the memory that they need.
pub(crate) fn narrow_states(alloc: Global, states: &[i64]) -> Result<Vec<u16>, AllocError>
    requires { All (λ z. (pos 0 ≤ℤ z) × (z <ℤ pos 4097)) states.now }
    ensures { IfOk result (λ v. map pos v.items ≡ states.now) }
{
    let mut narrow = Vec::with_capacity(alloc, states.len())?;
    for state in states {
        narrow.push_reserved(*state as u16);
    }
    Ok(narrow)
}

impl StateMachine {
    ghost use Rattle.code_blocks.specs.Kinds.{state_machine_of};

    /// The machine that begins in the state `start`, with copies of its tables: what belongs to state `s` and symbol
    /// `x` stands at `s * symbols + x` of both. `BadParameter` names the first parameter that is outside its range,
    /// before any memory is asked for: `symbols` from 1 to 4,096; `next`, 1 to 4,096 states, a row of `symbols` for
    /// each state; `output`, a byte for each of them; `init`, a state. `Memory` only where the allocator refuses a
    /// copy.
    pub fn new(
        alloc: Global,
        symbols: u32,
        next: &[i64],
        output: &[i64],
        start: u32,
    ) -> Result<StateMachine, ParamFault>
        ensures meaning { IfOk result (λ block. state_machine_of block
            ≡ state_machine symbols (map unsigned_abs next.now) output.now start) }
        ensures range { OnOk result (AreTables symbols next.now output.now start) }
        ensures fault { IfErr result (IsTableRefusal symbols next.now output.now start) }
    {
        if let Some(parameter) = first_bad(symbols, next, output, start) {
            return Err(ParamFault::BadParameter(parameter));
        }
        Ok(StateMachine {
            symbols,
            next: narrow_states(alloc, next)?,
            output: narrowed(alloc, output)?,
            start,
        })
    }

    // Appends what the machine gives for the bytes, from a state on, to an empty `out` with room for it, and answers
    // the state behind them.
    fn run_bytes(&self, start: u64, items: &[u8], out: &mut Vec<u8>) -> u64
        requires state { start < length self.now.next.items / self.now.symbols }
        requires empty { map pos out.old.items ≡ [] }
        requires room { length items.now ≤ vec_capacity out.old - vec_len out.old }
        ensures items { map pos out.new.items ≡ given_from self.now.symbols self.now.next.items
            (map pos self.now.output.items) start (map pos items.now) (length items.now) }
        ensures word { result ≡ state_after self.now.symbols self.now.next.items start (map pos items.now)
            (length items.now) }
        ensures len { vec_len out.new ≡ length items.now }
        ensures capacity { vec_capacity out.new ≡ vec_capacity out.old }
    {
        let mut state = start;
        for byte in items {
            let row = state as usize * self.symbols as usize
                + (u32::from(*byte) % self.symbols) as usize;
            out.push_reserved(self.output[row]);
            state = u64::from(self.next[row]);
        }
        state
    }

    // Writes what the machine gives for the items, from a state on, into an empty `out` with room for it, and answers
    // the state behind them.
    fn run(&self, start: u64, items: &Items, out: &mut Items) -> u64
        requires state { start < length self.now.next.items / self.now.symbols }
        requires from { type_of items.now ≡ Byte }
        requires to { type_of out.old ≡ Byte }
        requires empty { numbers_of out.old ≡ [] }
        requires room { length (numbers_of items.now) ≤ spare_of out.old }
        ensures item_type { type_of out.new ≡ Byte }
        ensures numbers { numbers_of out.new ≡ given_from self.now.symbols self.now.next.items
            (map pos self.now.output.items) start (numbers_of items.now) (length (numbers_of items.now)) }
        ensures word { result ≡ state_after self.now.symbols self.now.next.items start (numbers_of items.now)
            (length (numbers_of items.now)) }
        ensures room { spare_of out.old ≤ spare_of out.new + length (numbers_of out.new) }
    {
        match (items, out) {
            (Items::Byte(items), Items::Byte(out)) => self.run_bytes(start, items, out),
            _ => unreachable!(),
        }
    }
}

impl Single for StateMachine {
    ghost use Rattle.std.specs.Prelude.{refl};
    ghost use Rattle.code_blocks.specs.Kinds.{state_machine_of};

    ghost equation = { state_machine_of };

    fn fill(&self, batch: &Batch<'_>, out: &mut Items) -> u64 {
        self.run(batch.state, batch.window, out)
    }

    ghost single = { λ b. record { in_least = refl; in_most = refl; out_least = refl; out_most = refl } };
}

impl Block for StateMachine {
    ghost use Rattle.code_blocks.specs.Kinds.{state_machine_of, state_machine_of-lawful, state_machine_of-same};

    ghost meaning = { state_machine_of };

    type Places = ByPace;

    fn shape(&self, _input: usize) -> Shape<'_> {
        Shape {
            start: u64::from(self.start),
            ..Shape::sync(ItemType::Byte, ItemType::Byte)
        }
    }

    fn work(
        &self,
        state: u64,
        first: u64,
        count: u64,
        windows: &[Items],
        held: &[Held],
        out: &mut [Items],
    ) -> u64 {
        work_single(self, state, first, count, windows, held, out)
    }

    ghost lawful = { state_machine_of-lawful };

    ghost same = { state_machine_of-same };
}
