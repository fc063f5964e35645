//! The block that undoes a scrambler: each output is the input with earlier inputs.
ghost use Rattle.std.specs.Prelude.{◌≡◌, ◌+◌, ◌-◌, ◌^◌, ◌<◌, ◌≤◌, ◌++◌, pos, [], map, length, vec_len, vec_capacity};
ghost use Rattle.bit_blocks.specs.Codes.{coded, word_after, given_bit, followed};

use crate::code::{code_bytes, follow};
use crate::register::{MOST_BITS, Register};
use crate::register_block::RegisterBlock;
use crate::scrambling::{Feed, Scrambling, Shifting};
use crate::sums::sum_behind;
use items::Items;

/// A self-synchronizing descrambler, which undoes `Scrambler`: each output is the input plus earlier inputs, modulo 2.
/// Only the lowest bit of a byte counts. As GNU Radio's `descrambler_bb`, with mask and register in the order of
/// `Register`.
pub type Descrambler = RegisterBlock<InputFeed>;

/// The register follows the inputs.
#[derive(Clone, Copy)]
pub struct InputFeed;

impl Feed for InputFeed {
    ghost fed = { λ bit _. bit };

    fn fed(bit: u64, _sum: u64) -> u64 {
        bit
    }
}

// Appends bytes where the capacity has room.
fn append(out: &mut Vec<u8>, more: &[u8])
    requires { vec_len out.old + length more.now ≤ vec_capacity out.old }
    ensures items { out.new.items ≡ out.old.items ++ more.now }
    ensures capacity { vec_capacity out.old ≤ vec_capacity out.new }
{
    match out.extend_from_slice(more) {
        Ok(()) => {}
        Err(_refusal) => unreachable!(),
    }
}

// Appends what is given for the bytes to an empty `out` with room for it, and answers the word behind them. Behind the
// first bytes each sum is of bytes alone, so that many are made at a time, and the last bytes are the register at the
// end.
fn descramble(register: &Register, start: u64, bytes: &[u8], out: &mut Vec<u8>) -> u64
    requires word { start < 2 ^ register.now.bits }
    requires empty { map pos out.old.items ≡ [] }
    requires room { length bytes.now ≤ vec_capacity out.old - vec_len out.old }
    ensures items { map pos out.new.items ≡ coded (given_bit register.now.bits register.now.mask)
        (followed register.now.bits) start (map pos bytes.now) }
    ensures word { result ≡ word_after (followed register.now.bits) start (map pos bytes.now) }
    ensures capacity { vec_capacity out.old ≤ vec_capacity out.new }
{
    let coder = Shifting::<InputFeed>::new(register);
    let first = bytes.len().min(MOST_BITS);
    let word = code_bytes(coder, start, &bytes[..first], out);
    if first == bytes.len() {
        return word;
    }
    append(out, &bytes[MOST_BITS..]);
    sum_behind(register, bytes, out);
    follow(coder, 0, &bytes[bytes.len() - MOST_BITS..])
}

impl Scrambling for InputFeed {
    ghost use Rattle.kind_model.specs.Bits.{descrambler};
    ghost use Rattle.kind_laws.specs.Bits.{descrambler-lawful};
    ghost use Rattle.bit_blocks.specs.Scrambled.{descrambler-coded};

    ghost equation = { descrambler };

    fn code(register: &Register, start: u64, items: &Items, out: &mut Items) -> u64 {
        match (items, out) {
            (Items::Byte(bytes), Items::Byte(out)) => descramble(register, start, bytes, out),
            _ => unreachable!(),
        }
    }

    ghost coded = { descrambler-coded };

    ghost lawful = { descrambler-lawful };
}
