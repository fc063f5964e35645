//! The kinds of blocks, and the values of their settings. A graph holds each block as a [`Kind`].

pub use bit_blocks::{
    AdditiveScrambler, CorrelateAccessCode, Descrambler, DiffDecoder, DiffEncoder, PackKBits,
    PackedToUnpacked, Register, RepackBits, Scrambler, UnpackKBits, UnpackedToPacked,
};
pub use block_parameters::{ParamFault, Parameter};
pub use block_trait::{Taps, Value};
pub use code_blocks::{Checksum, CrcAppend, CrcCheck, StateMachine, Trellis, Viterbi};
pub use fir_blocks::{Fir, InterpFir};
pub use kinds::{Kind, KindName, NullSink, VectorSink, VectorSource};
pub use math_blocks::{
    Abs, Add, AddConst, AlawEncode, And, AndConst, BinarySlicer, Clip, Convert, Divide,
    DivideConst, MapBb, Maximum, Minimum, MovingSum, Multiply, MultiplyConst, Mute, Not, Or,
    OrConst, SampleAndHold, Scale, Sub, Table, UlawEncode, Xor, XorConst,
};
pub use rate_blocks::{
    Argmax, Counter, Deinterleave, Delay, FrameMaximum, FrameMinimum, Head, Insert, Integrate,
    Interleave, KeepMInN, KeepOneInN, Pattern, Permute, Repeat, SkipHead, StreamMux,
};
