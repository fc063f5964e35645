//! Codes that go on from byte to byte.
ghost use Rattle.std.specs.Prelude.{◌≡◌, ◌+◌, ◌-◌, ◌≤◌, ℕ, ℤ, pos, [], map, length, vec_len, vec_capacity};
ghost use Rattle.items.specs.Items.{numbers_of, spare_of};
ghost use Rattle.bit_blocks.specs.Codes.{coded, word_after, CanCode, HasCoded};

use items::Items;
use std::mem;

/// A code that gives a byte for a byte by a word, which the byte then changes. It is small and copied, so that no write
/// of a byte can change it.
pub(crate) trait Coder: Copy {
    /// Whether the word can come up.
    ghost is_word: { Self → ℕ → Type 0 };

    /// What is given for a byte.
    ghost gives: { Self → ℕ → ℤ → ℕ };

    /// The word behind the byte.
    ghost next: { Self → ℕ → ℤ → ℕ };

    /// The byte that is given for a byte, and the word behind it.
    fn step(self, word: u64, byte: u8) -> (u8, u64)
        requires { is_word self word }
        ensures given { result.0 ≡ gives self word (pos byte) }
        ensures next { result.1 ≡ next self word (pos byte) }
        ensures word { is_word self result.1 };
}

/// Appends the code of the bytes to an empty `out` with room for it, and answers the word behind them.
pub(crate) fn code_bytes<C: Coder>(coder: C, start: u64, items: &[u8], out: &mut Vec<u8>) -> u64
    requires word { C.is_word coder start }
    requires empty { map pos out.old.items ≡ [] }
    requires room { length items.now ≤ vec_capacity out.old - vec_len out.old }
    ensures items { map pos out.new.items ≡ coded (C.gives coder) (C.next coder) start (map pos items.now) }
    ensures word { result ≡ word_after (C.next coder) start (map pos items.now) }
    ensures len { vec_len out.new ≡ vec_len out.old + length items.now }
    ensures capacity { vec_capacity out.new ≡ vec_capacity out.old }
{
    let alloc = *out.allocator();
    let mut made = mem::replace(out, Vec::new(alloc));
    let word = push_code(coder, start, items, &mut made);
    *out = made;
    word
}

/// Codes the items to a vector of the caller's own, whose length and place in memory stay in registers.
#[inline(always)]
fn push_code<C: Coder>(coder: C, start: u64, items: &[u8], made: &mut Vec<u8>) -> u64
    requires word { C.is_word coder start }
    requires empty { map pos made.old.items ≡ [] }
    requires room { length items.now ≤ vec_capacity made.old - vec_len made.old }
    ensures items { map pos made.new.items ≡ coded (C.gives coder) (C.next coder) start (map pos items.now) }
    ensures word { result ≡ word_after (C.next coder) start (map pos items.now) }
    ensures len { vec_len made.new ≡ vec_len made.old + length items.now }
    ensures capacity { vec_capacity made.new ≡ vec_capacity made.old }
{
    let mut word = start;
    for byte in items {
        let (given, next) = coder.step(word, *byte);
        made.push_reserved(given);
        word = next;
    }
    word
}

/// The word behind the bytes.
pub(crate) fn follow<C: Coder>(coder: C, start: u64, items: &[u8]) -> u64
    requires { C.is_word coder start }
    ensures { result ≡ word_after (C.next coder) start (map pos items.now) }
{
    let mut word = start;
    for byte in items {
        let (_given, next) = coder.step(word, *byte);
        word = next;
    }
    word
}

/// Writes the code of the items into an empty `out` with room for it, and answers the word behind them.
pub(crate) fn code<C: Coder>(coder: C, start: u64, items: &Items, out: &mut Items) -> u64
    requires word { C.is_word coder start }
    requires can { CanCode items.now out.old }
    ensures coded { HasCoded (C.gives coder) (C.next coder) start items.now out.new result }
    ensures room { spare_of out.old ≤ spare_of out.new + length (numbers_of out.new) }
{
    match (items, out) {
        (Items::Byte(items), Items::Byte(out)) => code_bytes(coder, start, items, out),
        _ => unreachable!(),
    }
}
