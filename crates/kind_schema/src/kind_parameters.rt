//! The parameters of each kind, and the range of each. The reader tests these ranges, `--explain` tells them, and `flow
//! kinds` prints them.
ghost use Rattle.std.specs.Prelude.{◌≡◌, ◌≤◌, length};
ghost use Rattle.kind_schema.specs.KindParameters.{types_of, parameters_of};

use crate::range::{ItemTypes, Range};
use block_parameters::Parameter;
use kinds::KindName;

/// The item types that the kind is for.
pub fn types_of(kind: KindName) -> ItemTypes
    ensures { result ≡ types_of kind }
{
    match kind {
        KindName::MapBb
        | KindName::Table
        | KindName::RepackBits
        | KindName::CorrelateAccessCode
        | KindName::CrcAppend
        | KindName::CrcCheck
        | KindName::StateMachine
        | KindName::PackKBits
        | KindName::UnpackKBits
        | KindName::DiffEncoder
        | KindName::DiffDecoder
        | KindName::Scrambler
        | KindName::Descrambler
        | KindName::AdditiveScrambler => ItemTypes::Bytes,
        KindName::Fir | KindName::InterpFir => ItemTypes::Wide,
        _ => ItemTypes::Any,
    }
}

/// The parameters of a block of the kind, in the order of their tests, with their ranges.
pub fn parameters_of(kind: KindName) -> &'static [(Parameter, Range)]
    ensures rows { result.now ≡ parameters_of kind }
    ensures few { length result.now ≤ 7 }
{
    match kind {
        KindName::VectorSource
        | KindName::VectorSink
        | KindName::NullSink
        | KindName::Add
        | KindName::And
        | KindName::Or
        | KindName::Xor
        | KindName::SampleAndHold
        | KindName::Not
        | KindName::Abs
        | KindName::Sub
        | KindName::Multiply
        | KindName::Divide
        | KindName::UlawEncode
        | KindName::AlawEncode
        | KindName::Minimum
        | KindName::Maximum => &[],
        KindName::AddConst
        | KindName::MultiplyConst
        | KindName::DivideConst
        | KindName::AndConst
        | KindName::OrConst
        | KindName::XorConst => &[(Parameter::Value, Range::Item)],
        KindName::Scale => &[
            (Parameter::Factor, Range::Short),
            (Parameter::Shift, Range::Number(0, 31)),
        ],
        KindName::MapBb => &[(Parameter::Map, Range::Bytes)],
        KindName::Convert => &[(Parameter::To, Range::Type)],
        KindName::BinarySlicer => &[(Parameter::Threshold, Range::Item)],
        KindName::MovingSum => &[(Parameter::Length, Range::Number(1, 1024))],
        KindName::Fir => &[
            (Parameter::Taps, Range::Taps),
            (Parameter::Decimation, Range::Number(1, 1024)),
            (Parameter::Shift, Range::Number(0, 31)),
        ],
        KindName::InterpFir => &[
            (Parameter::Taps, Range::Taps),
            (Parameter::Interpolation, Range::Number(1, 1024)),
            (Parameter::Shift, Range::Number(0, 31)),
        ],
        KindName::PackKBits | KindName::UnpackKBits => &[(Parameter::K, Range::Number(1, 8))],
        KindName::DiffEncoder | KindName::DiffDecoder => {
            &[(Parameter::Modulus, Range::Number(2, 256))]
        }
        KindName::Scrambler | KindName::Descrambler | KindName::AdditiveScrambler => &[
            (Parameter::Bits, Range::Number(2, 32)),
            (Parameter::Mask, Range::Register(1)),
            (Parameter::Init, Range::Register(0)),
        ],
        KindName::KeepOneInN
        | KindName::Integrate
        | KindName::FrameMinimum
        | KindName::FrameMaximum
        | KindName::Argmax
        | KindName::Repeat => &[(Parameter::N, Range::Number(1, 1024))],
        KindName::Interleave | KindName::Deinterleave => {
            &[(Parameter::Ports, Range::Number(1, 16))]
        }
        KindName::StreamMux => &[(Parameter::Lengths, Range::Lengths)],
        KindName::Head | KindName::SkipHead => &[(Parameter::N, Range::Long(1 << 32))],
        KindName::Delay => &[(Parameter::N, Range::Number(0, 65536))],
        KindName::Clip => &[
            (Parameter::Low, Range::Item),
            (Parameter::High, Range::High),
        ],
        KindName::Mute => &[(Parameter::On, Range::Switch)],
        KindName::Table => &[
            (Parameter::To, Range::Type),
            (Parameter::Values, Range::TargetItems),
        ],
        KindName::KeepMInN => &[
            (Parameter::M, Range::Number(1, 1024)),
            (Parameter::N, Range::AtLeast(Parameter::M, 1024)),
            (Parameter::Offset, Range::KeptOffset),
        ],
        KindName::Insert => &[
            (Parameter::Values, Range::Items),
            (Parameter::Period, Range::Period),
            (Parameter::Offset, Range::ValuesOffset),
        ],
        KindName::Pattern => &[(Parameter::Values, Range::Items)],
        KindName::Counter => &[(Parameter::N, Range::Number(1, 2147483648))],
        KindName::Permute => &[(Parameter::Places, Range::Places)],
        KindName::RepackBits => &[
            (Parameter::Order, Range::BitOrder),
            (Parameter::K, Range::Number(1, 8)),
            (Parameter::L, Range::Number(1, 8)),
        ],
        KindName::PackedToUnpacked | KindName::UnpackedToPacked => &[
            (Parameter::Order, Range::BitOrder),
            (Parameter::Bits, Range::ItemBits),
        ],
        KindName::CorrelateAccessCode => &[
            (Parameter::Code, Range::Code),
            (Parameter::Threshold, Range::Threshold),
        ],
        KindName::CrcAppend | KindName::CrcCheck => &[
            (Parameter::Order, Range::BitOrder),
            (Parameter::Bits, Range::Number(8, 32)),
            (Parameter::Polynomial, Range::Register(0)),
            (Parameter::Init, Range::Register(0)),
            (Parameter::FinalXor, Range::Register(0)),
            (Parameter::N, Range::Number(1, 1020)),
        ],
        KindName::StateMachine => &[
            (Parameter::Symbols, Range::Number(1, 4096)),
            (Parameter::Next, Range::States),
            (Parameter::Output, Range::Outputs),
            (Parameter::Init, Range::State),
        ],
        KindName::Viterbi => &[
            (Parameter::Symbols, Range::Number(1, 256)),
            (Parameter::Next, Range::FewStates),
            (Parameter::Outputs, Range::Number(1, 1024)),
            (Parameter::Output, Range::NumbersOfOutputs),
            (Parameter::Steps, Range::Steps),
            (Parameter::Start, Range::KnownState),
            (Parameter::End, Range::KnownState),
        ],
    }
}
