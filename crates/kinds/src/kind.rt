//! Blocks of any kind.
use crate::{NullSink, VectorSink, VectorSource};
use bit_blocks::{
    AdditiveScrambler, CorrelateAccessCode, Descrambler, DiffDecoder, DiffEncoder, PackKBits,
    PackedToUnpacked, RepackBits, Scrambler, UnpackKBits, UnpackedToPacked,
};
use block_trait::{Block, ByPace, Held, Shape};
use code_blocks::{CrcAppend, CrcCheck, StateMachine, Viterbi};
use fir_blocks::{Fir, InterpFir};
use items::Items;
use math_blocks::{
    Abs, Add, AddConst, AlawEncode, And, AndConst, BinarySlicer, Clip, Convert, Divide,
    DivideConst, MapBb, Maximum, Minimum, MovingSum, Multiply, MultiplyConst, Mute, Not, Or,
    OrConst, SampleAndHold, Scale, Sub, Table, UlawEncode, Xor, XorConst,
};
use rate_blocks::{
    Argmax, Counter, Deinterleave, Delay, FrameMaximum, FrameMinimum, Head, Insert, Integrate,
    Interleave, KeepMInN, KeepOneInN, Pattern, Permute, Repeat, SkipHead, StreamMux,
};

/// A block of any kind. It means what the block inside means.
#[derive(Debug, Drop, PartialEq, Eq)]
pub enum Kind {
    /// Gives the tape that it is fed.
    VectorSource(VectorSource),
    /// Keeps its input.
    VectorSink(VectorSink),
    /// Drops its input.
    NullSink(NullSink),
    /// Adds a number to each item.
    AddConst(AddConst),
    /// Multiplies each item by a number.
    MultiplyConst(MultiplyConst),
    /// Divides each item by a number.
    DivideConst(DivideConst),
    /// Gives the bitwise and of each item and a number.
    AndConst(AndConst),
    /// Gives the bitwise or of each item and a number.
    OrConst(OrConst),
    /// Gives the bitwise exclusive or of each item and a number.
    XorConst(XorConst),
    /// Multiplies each item by a number and divides it by a power of two.
    Scale(Scale),
    /// Gives the nearest number of a range.
    Clip(Clip),
    /// Gives each item without its sign.
    Abs(Abs),
    /// Inverts all bits of each item.
    Not(Not),
    /// Gives zeros while it is on.
    Mute(Mute),
    /// Adds the items of its inputs.
    Add(Add),
    /// Subtracts the items of its other inputs from those of the first.
    Sub(Sub),
    /// Multiplies the items of its inputs.
    Multiply(Multiply),
    /// Divides the items of its first input by those of the others.
    Divide(Divide),
    /// Gives the least of the items of its inputs.
    Minimum(Minimum),
    /// Gives the greatest of the items of its inputs.
    Maximum(Maximum),
    /// Gives the bitwise and of its inputs.
    And(And),
    /// Gives the bitwise or of its inputs.
    Or(Or),
    /// Gives the bitwise exclusive or of its inputs.
    Xor(Xor),
    /// Holds an item until it takes the next.
    SampleAndHold(SampleAndHold),
    /// Looks bytes up in a table.
    MapBb(MapBb),
    /// Gives a number for each byte.
    Table(Table),
    /// Converts items to another type.
    Convert(Convert),
    /// Tells which items are at least a threshold.
    BinarySlicer(BinarySlicer),
    /// Encodes items as bytes by the mu-law.
    UlawEncode(UlawEncode),
    /// Encodes items as bytes by the A-law.
    AlawEncode(AlawEncode),
    /// Gives the sum of the last `length` items.
    MovingSum(MovingSum),
    /// Filters items by taps, and keeps one in so many.
    Fir(Fir),
    /// Filters items by taps, and gives so many for each.
    InterpFir(InterpFir),
    /// Keeps the last of each `n` items.
    KeepOneInN(KeepOneInN),
    /// Keeps `m` of each `n` items.
    KeepMInN(KeepMInN),
    /// Gives the sum of each `n` items.
    Integrate(Integrate),
    /// Gives the least of each `n` items.
    FrameMinimum(FrameMinimum),
    /// Gives the greatest of each `n` items.
    FrameMaximum(FrameMaximum),
    /// Tells where the greatest of each `n` items is.
    Argmax(Argmax),
    /// Gives each item `n` times.
    Repeat(Repeat),
    /// Puts a list into its input, again and again.
    Insert(Insert),
    /// Gives a list again and again.
    Pattern(Pattern),
    /// Counts its items modulo `n`.
    Counter(Counter),
    /// Puts the items of each frame into another order.
    Permute(Permute),
    /// Takes an item of each input in turn.
    Interleave(Interleave),
    /// Gives an item to each output in turn.
    Deinterleave(Deinterleave),
    /// Takes several items of each input in turn.
    StreamMux(StreamMux),
    /// Gives its first `n` items and ends.
    Head(Head),
    /// Leaves out its first `n` items.
    SkipHead(SkipHead),
    /// Gives `n` zeros and then its input.
    Delay(Delay),
    /// Packs bits into bytes.
    PackKBits(PackKBits),
    /// Unpacks bits from bytes.
    UnpackKBits(UnpackKBits),
    /// Goes from `k` bits in a byte to `l`.
    RepackBits(RepackBits),
    /// Cuts items into items of fewer bits.
    PackedToUnpacked(PackedToUnpacked),
    /// Puts the lowest bits of items together.
    UnpackedToPacked(UnpackedToPacked),
    /// Gives the sums of bytes.
    DiffEncoder(DiffEncoder),
    /// Gives the differences of bytes.
    DiffDecoder(DiffDecoder),
    /// Scrambles bits.
    Scrambler(Scrambler),
    /// Undoes a scrambler.
    Descrambler(Descrambler),
    /// Adds the bits of a shift register with feedback.
    AdditiveScrambler(AdditiveScrambler),
    /// Marks what follows an access code.
    CorrelateAccessCode(CorrelateAccessCode),
    /// Puts a checksum behind each frame.
    CrcAppend(CrcAppend),
    /// Tells whether the checksum behind each frame is its own.
    CrcCheck(CrcCheck),
    /// Goes from state to state, and gives a byte for each.
    StateMachine(StateMachine),
    /// Finds the symbols whose path through a machine has the metrics of the least sum.
    Viterbi(Viterbi),
}

// A match on a block, where each arm does the same with the block inside.
macro_rules! on_block {
    ($kind:expr, $block:ident => $body:expr) => {
        match $kind {
            Kind::VectorSource($block) => $body,
            Kind::VectorSink($block) => $body,
            Kind::NullSink($block) => $body,
            Kind::AddConst($block) => $body,
            Kind::MultiplyConst($block) => $body,
            Kind::DivideConst($block) => $body,
            Kind::AndConst($block) => $body,
            Kind::OrConst($block) => $body,
            Kind::XorConst($block) => $body,
            Kind::Scale($block) => $body,
            Kind::Clip($block) => $body,
            Kind::Abs($block) => $body,
            Kind::Not($block) => $body,
            Kind::Mute($block) => $body,
            Kind::Add($block) => $body,
            Kind::Sub($block) => $body,
            Kind::Multiply($block) => $body,
            Kind::Divide($block) => $body,
            Kind::Minimum($block) => $body,
            Kind::Maximum($block) => $body,
            Kind::And($block) => $body,
            Kind::Or($block) => $body,
            Kind::Xor($block) => $body,
            Kind::SampleAndHold($block) => $body,
            Kind::MapBb($block) => $body,
            Kind::Table($block) => $body,
            Kind::Convert($block) => $body,
            Kind::BinarySlicer($block) => $body,
            Kind::UlawEncode($block) => $body,
            Kind::AlawEncode($block) => $body,
            Kind::MovingSum($block) => $body,
            Kind::Fir($block) => $body,
            Kind::InterpFir($block) => $body,
            Kind::KeepOneInN($block) => $body,
            Kind::KeepMInN($block) => $body,
            Kind::Integrate($block) => $body,
            Kind::FrameMinimum($block) => $body,
            Kind::FrameMaximum($block) => $body,
            Kind::Argmax($block) => $body,
            Kind::Repeat($block) => $body,
            Kind::Insert($block) => $body,
            Kind::Pattern($block) => $body,
            Kind::Counter($block) => $body,
            Kind::Permute($block) => $body,
            Kind::Interleave($block) => $body,
            Kind::Deinterleave($block) => $body,
            Kind::StreamMux($block) => $body,
            Kind::Head($block) => $body,
            Kind::SkipHead($block) => $body,
            Kind::Delay($block) => $body,
            Kind::PackKBits($block) => $body,
            Kind::UnpackKBits($block) => $body,
            Kind::RepackBits($block) => $body,
            Kind::PackedToUnpacked($block) => $body,
            Kind::UnpackedToPacked($block) => $body,
            Kind::DiffEncoder($block) => $body,
            Kind::DiffDecoder($block) => $body,
            Kind::Scrambler($block) => $body,
            Kind::Descrambler($block) => $body,
            Kind::AdditiveScrambler($block) => $body,
            Kind::CorrelateAccessCode($block) => $body,
            Kind::CrcAppend($block) => $body,
            Kind::CrcCheck($block) => $body,
            Kind::StateMachine($block) => $body,
            Kind::Viterbi($block) => $body,
        }
    };
}

impl Block for Kind {
    ghost use Rattle.kinds.specs.Kind.{meaning_of, meaning_of-lawful, meaning_of-same};

    ghost meaning = { meaning_of };

    type Places = ByPace;

    fn shape(&self, input: usize) -> Shape<'_> {
        on_block!(self, block => block.shape(input))
    }

    fn work(
        &self,
        state: u64,
        first: u64,
        count: u64,
        windows: &[Items],
        held: &[Held],
        out: &mut [Items],
    ) -> u64 {
        on_block!(self, block => block.work(state, first, count, windows, held, out))
    }

    ghost lawful = { meaning_of-lawful };

    ghost same = { meaning_of-same };
}
