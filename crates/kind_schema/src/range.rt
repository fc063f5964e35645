//! The ranges of parameters.

use block_parameters::Parameter;

/// The item types that a kind is for.
#[derive(Clone, Copy, Debug, PartialEq, Eq)]
pub enum ItemTypes {
    /// Only bytes: a block of the kind has no key `type`.
    Bytes,
    /// Any type.
    Any,
    /// Shorts and ints.
    Wide,
}

/// The range of a parameter.
#[derive(Clone, Copy, Debug, PartialEq, Eq)]
pub enum Range {
    /// The name of an item type.
    Type,
    /// A number in the range of the block's items.
    Item,
    /// A number in the range of shorts.
    Short,
    /// A whole number, at least the first and at most the second.
    Number(u32, u32),
    /// A whole number of at most this. It may take more than 32 bits.
    Long(u64),
    /// A whole number of at least this, in as many bits as the parameter `bits` says.
    Register(u64),
    /// 0 or 1.
    Switch,
    /// A number in the range of the block's items, and not below the parameter `low`.
    High,
    /// A whole number, at least this parameter and at most this number.
    AtLeast(Parameter, u32),
    /// At most the parameter `n` less `m`.
    KeptOffset,
    /// More than the length of the parameter `values`, and at most 1,024.
    Period,
    /// At most the parameter `period` less the length of `values`.
    ValuesOffset,
    /// 1 to the number of bits of the block's items.
    ItemBits,
    /// `msb_first` or `lsb_first`.
    BitOrder,
    /// A text of 1 to 64 digits 0 and 1.
    Code,
    /// At most the number of digits of the parameter `code`.
    Threshold,
    /// 1 to 256 numbers in the range of the block's items.
    Items,
    /// 1 to 256 numbers in the range of items of the type `to`.
    TargetItems,
    /// The numbers from 0 to their count less 1, in any order; at most 256.
    Places,
    /// 1 to 256 numbers in the range of shorts.
    Taps,
    /// At most 256 numbers in the range of bytes.
    Bytes,
    /// 1 to 16 numbers, each from 1 to 1,024, with a sum of at most 1,024.
    Lengths,
    /// 1 to 4,096 numbers of states; the parameter `symbols` says how many for each state.
    States,
    /// A byte for each number of the parameter `next`.
    Outputs,
    /// The number of a state. There are as many states as rows of `symbols` numbers in `next`.
    State,
    /// 1 to 4,096 numbers of states, for at most 1,024 states; the parameter `symbols` says how many for each.
    FewStates,
    /// A number for each number of the parameter `next`, less than the parameter `outputs`.
    NumbersOfOutputs,
    /// At least 1. A block has at most 1,024 metrics (`outputs` for each step) and 16,384 choices (one for each step
    /// and state).
    Steps,
    /// The number of a state, like `State`, or less than 0 if none is known.
    KnownState,
}
