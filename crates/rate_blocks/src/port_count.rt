//! How many inputs or outputs take turns.
ghost use Rattle.std.specs.Prelude.{◌≡◌, ◌≤◌, ◌↔◌, IsOk, IfOk, IfErr};

use block_parameters::{ParamFault, Parameter};

/// The number of inputs or outputs that take turns, an item each: 1 to 16.
#[derive(Clone, Copy, Debug, PartialEq, Eq)]
pub(crate) struct PortCount {
    pub(crate) value: u64,
    ghost some: { 1 ≤ value },
    ghost few: { value ≤ 16 },
}

impl PortCount {
    /// So many; `BadParameter` outside 1 to 16.
    pub(crate) fn new(value: u64) -> Result<PortCount, ParamFault>
        ensures value { IfOk result (λ ports. ports.value ≡ value) }
        ensures range { IsOk result ↔ ((1 ≤ value) × (value ≤ 16)) }
        ensures err { IfErr result (λ fault. fault ≡ ParamFault.BadParameter Parameter.Ports) }
    {
        if value < 1 || 16 < value {
            return Err(ParamFault::BadParameter(Parameter::Ports));
        }
        Ok(PortCount { value })
    }
}
