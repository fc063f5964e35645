//! The words that code and definitions share.

/// Which bit of a number comes first where its bits are a stream.
#[derive(Clone, Copy, Debug, PartialEq, Eq)]
pub enum BitOrder {
    /// The highest.
    MsbFirst,
    /// The lowest.
    LsbFirst,
}

/// How a checksum is computed: a cyclic redundancy check, in the words of the usual catalogues.
#[derive(Clone, Copy, Debug, PartialEq, Eq)]
pub struct Checksum {
    /// How many bits it has.
    pub bits: u32,
    /// The polynomial, without its highest term.
    pub polynomial: u64,
    /// What the register holds at first.
    pub init: u64,
    /// What is added to the register at the end, modulo 2.
    pub final_xor: u64,
    /// Which bit of a byte comes first, and whether the first bit of the register is the highest of the checksum or the
    /// lowest.
    pub order: BitOrder,
}
