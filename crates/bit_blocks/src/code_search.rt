//! The search for a code among bits.
ghost use Rattle.std.specs.Prelude.{◌≡◌, ◌≤◌, ◌<◌, ◌+◌, ◌*◌, ◌&&◌, nat_le, if◌then◌else◌, length, map, pos};
ghost use Rattle.kind_model.specs.BitStreams.{distance};
ghost use Rattle.bit_blocks.specs.Marked.{word_at};

use item_dispatch::ByteWork;

/// A code that is looked for from output `first` on.
#[derive(Clone, Copy)]
pub(crate) struct CodeSearch {
    pub(crate) code: u64,
    pub(crate) length: u32,
    pub(crate) threshold: u32,
    pub(crate) first: u64,
    ghost some: { 1 ≤ length },
    ghost few: { length ≤ 64 },
}

impl CodeSearch {
    /// The bit, with bit 1 set where the word before it is near enough to the code and this many items have the code
    /// among them.
    #[inline(always)]
    fn mark(self, word: u64, bit: u8, place: u64) -> u8
        requires { bit < 2 }
        ensures { result ≡ bit + 2 * (if nat_le self.length place && nat_le (distance word self.code)
            self.threshold then 1 else 0) }
    {
        let near = (word ^ self.code).count_ones() <= self.threshold;
        if u64::from(self.length) <= place && near {
            bit + 2
        } else {
            bit
        }
    }
}

/// The number of the lowest bits of the bytes, the first the highest.
fn word_of(bytes: &[u8]) -> u64
    requires { length bytes.now ≤ 64 }
    ensures { result ≡ word_at (length bytes.now) (map pos bytes.now) 0 }
{
    let mut word = 0;
    for k in 0..bytes.len() {
        word = 2 * word + u64::from(bytes[k] % 2);
    }
    word
}

impl ByteWork for CodeSearch {
    ghost use Rattle.std.specs.Prelude.{◌^◌};
    ghost use Rattle.stream_model.specs.Lists.{listed};
    ghost use Rattle.bit_blocks.specs.Marked.{marked};

    ghost can_make = { λ b xs count. (length xs ≡ 64 + b.length + count) × (b.first + count < 2 ^ 63) };

    ghost makes = { λ b xs count. listed count (marked b.code b.length b.threshold b.first xs) };

    // The word has the bits before the item: the oldest goes where one comes.
    fn make(&self, items: &[u8], out: &mut [u8]) {
        let reach = self.length as usize;
        let newest = 1 << (self.length - 1);
        let mut word = word_of(&items[..reach]);
        for k in 0..out.len() {
            let bit = items[k + reach] % 2;
            out[k] = self.mark(word, bit, self.first + k as u64);
            word = 2 * (word % newest) + u64::from(bit);
        }
    }
}
