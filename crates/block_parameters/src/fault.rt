//! Why a block could not be made.
ghost use Rattle.std.specs.Prelude.{◌≡◌, Some};
ghost use Rattle.block_parameters.specs.Fault.{row_of, parameter_text, text_of};
ghost use Rattle.block_parameters.specs.declared.fault.ParamFault.TheVariants.{Memory};

use refusal_codes::Refusal;
use std::alloc::AllocError;
use std::error::Error;
use std::fmt;

/// The parameters of blocks. A parameter prints as the name that a graph gives it.
#[derive(Clone, Copy, Debug, PartialEq, Eq)]
pub enum Parameter {
    /// `type`
    ItemType,
    /// `value`
    Value,
    /// `factor`
    Factor,
    /// `shift`
    Shift,
    /// `map`
    Map,
    /// `to`
    To,
    /// `length`
    Length,
    /// `taps`
    Taps,
    /// `decimation`
    Decimation,
    /// `interpolation`
    Interpolation,
    /// `k`
    K,
    /// `modulus`
    Modulus,
    /// `bits`
    Bits,
    /// `mask`
    Mask,
    /// `init`
    Init,
    /// `n`
    N,
    /// `ports`
    Ports,
    /// `lengths`
    Lengths,
    /// `low`
    Low,
    /// `high`
    High,
    /// `on`
    On,
    /// `values`
    Values,
    /// `code`
    Code,
    /// `threshold`
    Threshold,
    /// `order`: of bits
    Order,
    /// `order`: of items
    Places,
    /// `l`
    L,
    /// `m`
    M,
    /// `offset`
    Offset,
    /// `period`
    Period,
    /// `polynomial`
    Polynomial,
    /// `final_xor`
    FinalXor,
    /// `symbols`
    Symbols,
    /// `next`
    Next,
    /// `output`
    Output,
    /// `outputs`
    Outputs,
    /// `steps`
    Steps,
    /// `start`
    Start,
    /// `end`
    End,
}

impl Parameter {
    /// The name that a graph gives the parameter.
    pub fn text(&self) -> &'static str
        ensures { result.now ≡ parameter_text self.now }
    {
        match self {
            Parameter::ItemType => "type",
            Parameter::Value => "value",
            Parameter::Factor => "factor",
            Parameter::Shift => "shift",
            Parameter::Map => "map",
            Parameter::To => "to",
            Parameter::Length => "length",
            Parameter::Taps => "taps",
            Parameter::Decimation => "decimation",
            Parameter::Interpolation => "interpolation",
            Parameter::K => "k",
            Parameter::Modulus => "modulus",
            Parameter::Bits => "bits",
            Parameter::Mask => "mask",
            Parameter::Init => "init",
            Parameter::N => "n",
            Parameter::Ports => "ports",
            Parameter::Lengths => "lengths",
            Parameter::Low => "low",
            Parameter::High => "high",
            Parameter::On => "on",
            Parameter::Values => "values",
            Parameter::Code => "code",
            Parameter::Threshold => "threshold",
            Parameter::L => "l",
            Parameter::M => "m",
            Parameter::Offset => "offset",
            Parameter::Period => "period",
            Parameter::Polynomial => "polynomial",
            Parameter::FinalXor => "final_xor",
            Parameter::Symbols => "symbols",
            Parameter::Next => "next",
            Parameter::Output => "output",
            Parameter::Outputs => "outputs",
            Parameter::Steps => "steps",
            Parameter::Start => "start",
            Parameter::End => "end",
            Parameter::Order | Parameter::Places => "order",
        }
    }
}

impl fmt::Display for Parameter {
    ghost output = { λ parameter. Some (parameter_text parameter) };

    fn fmt<W: fmt::Write>(&self, f: &mut fmt::Formatter<W>) -> fmt::Result {
        f.write_str(self.text())
    }
}

/// Why a block could not be made. No parameter is bad where it is `Memory`.
#[derive(Clone, Copy, Debug, PartialEq, Eq)]
pub enum ParamFault {
    /// The parameter has a value that a block of this kind may not have. Of several such, it is the first in the
    /// order in which the kind lists its parameters.
    BadParameter(Parameter),
    /// Out of memory for a list.
    Memory,
}

impl Refusal for ParamFault {
    ghost row = { row_of };

    fn row(&self) -> (u32, &'static str) {
        match self {
            ParamFault::BadParameter(_) => (10, "BadParameter"),
            ParamFault::Memory => (32, "Memory"),
        }
    }
}

impl fmt::Display for ParamFault {
    ghost output = { λ fault. Some (text_of fault) };

    fn fmt<W: fmt::Write>(&self, f: &mut fmt::Formatter<W>) -> fmt::Result {
        match self {
            ParamFault::BadParameter(parameter) => write!(f, "bad parameter {parameter}"),
            ParamFault::Memory => write!(f, "out of memory"),
        }
    }
}

impl Error for ParamFault {}

impl From<AllocError> for ParamFault {
    ghost from_gives = { λ _ e. e ≡ Memory };

    fn from(_refusal: AllocError) -> ParamFault {
        ParamFault::Memory
    }
}
