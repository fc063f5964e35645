//! Moduli of bytes.
ghost use Rattle.std.specs.Prelude.{◌≡◌, ◌≤◌, ◌↔◌, IsOk, IfOk, IfErr};

use block_parameters::{ParamFault, Parameter};

/// The number modulo which bytes are added or subtracted: 2 to 256.
#[derive(Clone, Copy, Debug, PartialEq, Eq)]
pub(crate) struct Modulus {
    pub(crate) value: u32,
    ghost some: { 2 ≤ value },
    ghost few: { value ≤ 256 },
}

impl Modulus {
    /// The modulus of this value; `BadParameter` outside 2 to 256.
    pub(crate) fn new(value: u32) -> Result<Modulus, ParamFault>
        ensures value { IfOk result (λ modulus. modulus.value ≡ value) }
        ensures range { IsOk result ↔ ((2 ≤ value) × (value ≤ 256)) }
        ensures err { IfErr result (λ fault. fault ≡ ParamFault.BadParameter Parameter.Modulus) }
    {
        if value < 2 || 256 < value {
            return Err(ParamFault::BadParameter(Parameter::Modulus));
        }
        Ok(Modulus { value })
    }
}
