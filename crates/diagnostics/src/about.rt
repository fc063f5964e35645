//! What each kind of block gives, in one line.

use block_parameters::Parameter;
use kinds::KindName;

/// The text about a kind, apart from its parameters.
#[derive(Clone, Copy, Debug)]
pub(crate) struct KindText {
    /// Item n of its output. `x` is its input; `c(n)` and `h(n)` are the settings at the input item that item n is made
    /// of.
    pub(crate) equation: &'static str,
    /// How many items it gives for how many; empty for the ends of a graph.
    pub(crate) rate: &'static str,
    /// A type or parameters, and what it makes of some items.
    pub(crate) example: &'static str,
}

/// The parameter of a block of the kind that a setting replaces.
pub(crate) fn setting_of(kind: KindName) -> Option<Parameter> {
    match kind {
        KindName::AddConst
        | KindName::MultiplyConst
        | KindName::DivideConst
        | KindName::AndConst
        | KindName::OrConst
        | KindName::XorConst => Some(Parameter::Value),
        KindName::Mute => Some(Parameter::On),
        KindName::Scale => Some(Parameter::Factor),
        KindName::Fir | KindName::InterpFir => Some(Parameter::Taps),
        _ => None,
    }
}

/// The text about a kind.
pub(crate) fn text_of(kind: KindName) -> KindText {
    let (equation, rate, example) = match kind {
        KindName::VectorSource => ("the items that it is fed", "", ""),
        KindName::VectorSink => ("keeps its input", "", ""),
        KindName::NullSink => ("drops its input", "", ""),
        KindName::AddConst => (
            "x[n] + c(n), wrapped",
            "1 for 1",
            "bytes, 10: 250 1 gives 4 11",
        ),
        KindName::MultiplyConst => ("x[n] * c(n), wrapped", "1 for 1", "bytes, 3: 100 gives 44"),
        KindName::DivideConst => (
            "x[n] / c(n) without what is behind the point, wrapped, and 0 where c(n) is 0",
            "1 for 1",
            "shorts, -2: 7 -7 -32768 gives -3 3 16384",
        ),
        KindName::AndConst => (
            "the bits that x[n] and c(n) both have",
            "1 for 1",
            "bytes, 12: 10 gives 8",
        ),
        KindName::OrConst => (
            "the bits that x[n] or c(n) has",
            "1 for 1",
            "bytes, 12: 10 gives 14",
        ),
        KindName::XorConst => (
            "the bits that one of x[n] and c(n) has",
            "1 for 1",
            "bytes, 12: 10 gives 6",
        ),
        KindName::Scale => (
            "x[n] * c(n) / 2^shift, to the nearest whole number (ties round up), then to the nearest in the type's range",
            "1 for 1",
            "shorts, 3, 1: 1 -1 30000 gives 2 -1 32767",
        ),
        KindName::Clip => (
            "the number from low to high that is nearest to x[n]",
            "1 for 1",
            "shorts, -5, 9: -30 7 30 gives -5 7 9",
        ),
        KindName::Abs => (
            "x[n] without its sign, wrapped",
            "1 for 1",
            "shorts: -5 7 -32768 gives 5 7 -32768",
        ),
        KindName::Not => (
            "x[n] with all bits inverted",
            "1 for 1",
            "bytes: 0 gives 255",
        ),
        KindName::Mute => (
            "0 while c(n) is 1, and x[n] while it is 0",
            "1 for 1",
            "1: 7 8 gives 0 0",
        ),
        KindName::Add => (
            "the sum of the items of its 1 to 16 inputs, wrapped",
            "1 for 1 of each input",
            "bytes: 1 2 and 10 20 give 11 22",
        ),
        KindName::Sub => (
            "the items of the first of its 1 to 16 inputs less those of the others, wrapped, and of one input their negative",
            "1 for 1 of each input",
            "bytes: 10 1 and 3 2 give 7 255",
        ),
        KindName::Multiply => (
            "the product of the items of its 1 to 16 inputs, wrapped",
            "1 for 1 of each input",
            "bytes: 3 100 and 2 3 give 6 44",
        ),
        KindName::Divide => (
            "the items of the first of its 1 to 16 inputs over those of the others in turn, each without what is behind the point, wrapped, and 0 over 0",
            "1 for 1 of each input",
            "shorts: 7 -7 5 and 2 2 0 give 3 -3 0",
        ),
        KindName::Minimum => (
            "the least of the items of its 1 to 16 inputs",
            "1 for 1 of each input",
            "shorts: 3 -9 and 2 5 give 2 -9",
        ),
        KindName::Maximum => (
            "the greatest of the items of its 1 to 16 inputs",
            "1 for 1 of each input",
            "shorts: 3 -9 and 2 5 give 3 5",
        ),
        KindName::And => (
            "the bits that all items of its 1 to 16 inputs have",
            "1 for 1 of each input",
            "bytes: 12 and 10 give 8",
        ),
        KindName::Or => (
            "the bits that any item of its 1 to 16 inputs has",
            "1 for 1 of each input",
            "bytes: 12 and 10 give 14",
        ),
        KindName::Xor => (
            "the bits that an odd number of the items of its 1 to 16 inputs have",
            "1 for 1 of each input",
            "bytes: 12 and 10 give 6",
        ),
        KindName::SampleAndHold => (
            "the item of its first input at the last place where the second is not 0, and 0 before there is one",
            "1 for 1 of each input",
            "bytes: 7 8 9 10 and 0 1 0 255 give 0 8 8 10",
        ),
        KindName::MapBb => (
            "map[x[n]], and x[n] itself behind the end of the map",
            "1 for 1",
            "5 6: 0 1 2 255 gives 5 6 2 255",
        ),
        KindName::Table => (
            "values[x[n]], and the last of them behind their end",
            "1 for 1",
            "shorts, -7 9: 0 1 5 gives -7 9 9",
        ),
        KindName::Convert => (
            "the number of the type `to` with the lowest bits of x[n]",
            "1 for 1",
            "shorts to bytes: -1 256 300 gives 255 0 44",
        ),
        KindName::BinarySlicer => (
            "the byte 1 where x[n] is at least `threshold`, and 0 elsewhere",
            "1 for 1",
            "shorts, 0: -5 0 7 gives 0 1 1",
        ),
        KindName::UlawEncode => (
            "the byte of x[n] by the mu-law of ITU-T G.711",
            "1 for 1",
            "shorts: 0 -1 32767 gives 255 127 128",
        ),
        KindName::AlawEncode => (
            "the byte of x[n] by the A-law of ITU-T G.711",
            "1 for 1",
            "shorts: 0 -8 32767 gives 213 85 170",
        ),
        KindName::MovingSum => (
            "the sum of the last `length` items, wrapped",
            "1 for 1",
            "bytes, 3: 1 2 3 4 200 100 gives 1 3 6 9 207 48",
        ),
        KindName::Fir => (
            "the sum of h(n)[j] * x[n * decimation - j] over the taps h, over 2^shift as `scale`",
            "1 for `decimation`",
            "shorts, 1 2 3: 1 0 0 4 gives 1 2 3 4",
        ),
        KindName::InterpFir => (
            "item m * interpolation + p is the sum of h(m)[p + j * interpolation] * x[m - j], over 2^shift as `scale`",
            "`interpolation` for 1",
            "shorts, 1 2 3, 2: 10 20 gives 10 20 50 40",
        ),
        KindName::KeepOneInN => (
            "the last of each n items",
            "1 for n",
            "3: 1 2 3 4 5 6 7 gives 3 6",
        ),
        KindName::KeepMInN => (
            "the m items from `offset` on of each n",
            "m for n",
            "2, 4, 1: 1 2 3 4 5 6 7 8 gives 2 3 6 7",
        ),
        KindName::Integrate => (
            "the sum of each n items, wrapped",
            "1 for n",
            "bytes, 2: 200 100 5 6 7 gives 44 11",
        ),
        KindName::FrameMinimum => (
            "the least of each n items",
            "1 for n",
            "shorts, 3: 4 -2 9 5 6 7 gives -2 5",
        ),
        KindName::FrameMaximum => (
            "the greatest of each n items",
            "1 for n",
            "shorts, 3: 4 -2 9 5 6 7 gives 9 7",
        ),
        KindName::Argmax => (
            "the place of the first of the greatest of each n items, from 0 on, wrapped",
            "1 for n",
            "shorts, 3: 4 -2 9 5 8 8 gives 2 1",
        ),
        KindName::Repeat => ("each item n times", "n for 1", "2: 1 2 gives 1 1 2 2"),
        KindName::Insert => (
            "the list `values` once in each `period` items, from item `offset` of these on, and x in all other places",
            "`period` for as many less than that as there are values",
            "9 8, 4, 1: 1 2 3 4 gives 1 9 8 2 3 9 8 4",
        ),
        KindName::Pattern => (
            "the list `values` again and again: its item n modulo its length, whatever x[n] is",
            "1 for 1",
            "7 8 9: 0 0 0 0 0 gives 7 8 9 7 8",
        ),
        KindName::Counter => (
            "n modulo the parameter `n`, wrapped, whatever x[n] is",
            "1 for 1",
            "3: 0 0 0 0 0 gives 0 1 2 0 1",
        ),
        KindName::Permute => (
            "item order[j] of each frame at its place j, where a frame has as many items as the order",
            "as many as the order has for as many",
            "2 0 1: 1 2 3 4 5 6 gives 3 1 2 6 4 5",
        ),
        KindName::Interleave => (
            "an item of each input in turn",
            "`ports` for 1 of each input",
            "2: 1 2 3 and 10 20 give 1 10 2 20",
        ),
        KindName::Deinterleave => (
            "an item to each output in turn",
            "1 to each output for `ports`",
            "3: 1 2 3 4 5 6 7 gives 1 4, 2 5 and 3 6",
        ),
        KindName::StreamMux => (
            "so many items of each input in turn as `lengths` says",
            "whole rounds",
            "2 1: 1 2 3 4 5 and 10 20 30 give 1 2 10 3 4 20",
        ),
        KindName::Head => (
            "the first n items, and then it is done",
            "1 for 1",
            "3: 1 2 3 4 gives 1 2 3",
        ),
        KindName::SkipHead => ("all items but the first n", "1 for 1", "2: 7 8 9 gives 9"),
        KindName::Delay => (
            "n zeros, and then the input",
            "1 for 1",
            "2: 7 8 gives 0 0 7 8",
        ),
        KindName::PackKBits => (
            "the lowest bits of k bytes as one byte, the first the highest",
            "1 for k",
            "4: 0 1 0 1 129 0 0 0 gives 5 8",
        ),
        KindName::UnpackKBits => (
            "the k lowest bits of each byte, a byte each, the highest first",
            "k for 1",
            "4: 245 8 gives 0 1 0 1 1 0 0 0",
        ),
        KindName::RepackBits => (
            "the k lowest bits of each byte, one after the other, in bytes of l bits",
            "whole rounds",
            "msb_first, 4, 8: 5 8 gives 88",
        ),
        KindName::PackedToUnpacked => (
            "all bits of each item, one after the other, in items of `bits` bits",
            "whole rounds",
            "bytes, msb_first, 4: 88 gives 5 8",
        ),
        KindName::UnpackedToPacked => (
            "the `bits` lowest bits of each item, one after the other, in whole items",
            "whole rounds",
            "bytes, msb_first, 4: 5 8 gives 88",
        ),
        KindName::DiffEncoder => (
            "the sum of all items so far, modulo `modulus`",
            "1 for 1",
            "4: 1 2 3 1 gives 1 3 2 3",
        ),
        KindName::DiffDecoder => (
            "x[n] - x[n-1], modulo `modulus`",
            "1 for 1",
            "4: 1 3 2 3 gives 1 2 3 1",
        ),
        KindName::Scrambler => (
            "y[n] = x[n] + the sum of m(j) * y[n-j], modulo 2",
            "1 for 1",
            "3, 5, 1: 1 0 0 1 gives 0 0 1 0",
        ),
        KindName::Descrambler => (
            "x[n] + the sum of m(j) * x[n-j], modulo 2",
            "1 for 1",
            "3, 5, 1: 0 0 1 0 gives 1 0 0 1",
        ),
        KindName::AdditiveScrambler => (
            "x[n] + s[n], where s[n] is the sum of m(j) * s[n-j], modulo 2",
            "1 for 1",
            "3, 5, 1: 0 0 0 0 gives 1 1 0 1",
        ),
        KindName::CorrelateAccessCode => (
            "bit 0 of x[n-64], and 2 more at the first item behind a `code`, where at most `threshold` bits differ",
            "1 for 1",
            "",
        ),
        KindName::CrcAppend => (
            "each `n` items, and then their checksum",
            "n + its bytes for n",
            "msb_first, 8, 7, 0, 0, 1: 1 2 gives 1 7 2 14",
        ),
        KindName::CrcCheck => (
            "1 for each `n` items with their checksum behind them, and 0 for each with another",
            "1 for n + its bytes",
            "msb_first, 8, 7, 0, 0, 1: 1 7 2 7 gives 1 0",
        ),
        KindName::StateMachine => (
            "output[r], where r is s * symbols + x[n] modulo symbols, and the state s, `init` at first, is next[r] from then on",
            "1 for 1",
            "2, 0 2 0 2 1 3 1 3, 0 3 3 0 1 2 2 1, 0: 1 0 1 1 0 0 gives 3 1 0 2 2 3",
        ),
        KindName::Viterbi => (
            "of each block, the symbols r modulo symbols of the path of rows r that lead by next[r] from state r / symbols on, for which the sum of x[outputs * i + output[r]] over steps i is the least",
            "steps for steps * outputs",
            "byte, 2, 0 2 0 2 1 3 1 3, 4, 0 3 3 0 1 2 2 1, 3, 0, -1: 2 1 1 0 1 0 2 1 0 1 1 2 gives 1 0 1",
        ),
    };
    KindText {
        equation,
        rate,
        example,
    }
}
