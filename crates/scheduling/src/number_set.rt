//! Sets of blocks, or of threads, by their numbers.

/// How many numbers there are: a graph has no more blocks, and a run no more threads than that.
pub const NUMBERS: usize = WORDS * BITS;

const WORDS: usize = 4;

/// How many of them a word has.
pub const BITS: usize = 64;

/// A set of numbers below 256. It takes no memory.
#[derive(Clone, Copy)]
pub struct NumberSet {
    words: [u64; WORDS],
}

impl NumberSet {
    /// The empty set.
    pub fn new() -> NumberSet {
        NumberSet { words: [0; WORDS] }
    }

    /// Adds a number.
    pub fn add(&mut self, number: usize) {
        if let Some(word) = self.words.get_mut(number / BITS) {
            *word |= 1u64 << (number % BITS);
        }
    }

    /// Takes a number away.
    pub fn remove(&mut self, number: usize) {
        if let Some(word) = self.words.get_mut(number / BITS) {
            *word &= !(1u64 << (number % BITS));
        }
    }

    /// Adds all numbers of another set.
    pub fn add_all(&mut self, other: &NumberSet) {
        for (word, more) in self.words.iter_mut().zip(&other.words) {
            *word |= *more;
        }
    }

    /// Whether it has this number.
    pub fn has(&self, number: usize) -> bool {
        match self.words.get(number / BITS) {
            Some(word) => *word & (1u64 << (number % BITS)) != 0,
            None => false,
        }
    }

    /// Those that are not among the others.
    pub fn without(mut self, other: &NumberSet) -> NumberSet {
        for (word, less) in self.words.iter_mut().zip(&other.words) {
            *word &= !*less;
        }
        self
    }

    /// Those that are among the others too.
    pub fn among(mut self, other: &NumberSet) -> NumberSet {
        for (word, kept) in self.words.iter_mut().zip(&other.words) {
            *word &= *kept;
        }
        self
    }

    /// How many numbers it has.
    pub fn count(&self) -> u32 {
        let mut count: u32 = 0;
        for word in &self.words {
            count = count.saturating_add(word.count_ones());
        }
        count
    }

    /// Whether it is empty.
    pub fn is_empty(&self) -> bool {
        self.count() == 0
    }

    /// Each 64 numbers, as the bits of a word.
    pub fn words(&self) -> &[u64] {
        &self.words
    }

    /// The least number that is no less than `from`, or else the least.
    pub fn next(&self, from: usize) -> Option<usize> {
        let at = from / BITS;
        if let Some(word) = self.words.get(at) {
            let bits = *word & (u64::MAX << (from % BITS));
            if bits != 0 {
                return Some(first_of(at, bits));
            }
        }
        for step in 1..=WORDS {
            let at = at.wrapping_add(step) % WORDS;
            if let Some(word) = self.words.get(at) {
                if *word != 0 {
                    return Some(first_of(at, *word));
                }
            }
        }
        None
    }
}

// The number of the first bit of a word.
fn first_of(word: usize, bits: u64) -> usize {
    word.wrapping_mul(BITS)
        .wrapping_add(bits.trailing_zeros() as usize)
}
