//! The parameters of the filters.
ghost use Rattle.std.specs.Prelude.{◌≡◌, ◌↔◌, IfSome, IsNone, IsTrue};
ghost use Rattle.fir_blocks.specs.Parameters.{AreTaps, AreParameters, IsFirstBad};

use block_parameters::Parameter;
use items::ItemType;
use numbers::range::is_item;

// Whether a filter may have these taps.
fn are_taps(taps: &[i64]) -> bool
    ensures { IsTrue result ↔ AreTaps taps.now }
{
    1 <= taps.len() && taps.len() <= 256 && taps.iter().all(|tap| is_item(ItemType::Short, *tap))
}

/// The first parameter that no filter may have, where the decimation or interpolation goes by the name `named`.
pub(crate) fn first_bad(
    item: ItemType,
    taps: &[i64],
    named: Parameter,
    rate: u64,
    shift: u32,
) -> Option<Parameter>
    ensures bad { IfSome result (IsFirstBad named item taps.now rate shift) }
    ensures good { IsNone result ↔ AreParameters item taps.now rate shift }
{
    if item == ItemType::Byte {
        Some(Parameter::ItemType)
    } else if !are_taps(taps) {
        Some(Parameter::Taps)
    } else if rate < 1 || 1_024 < rate {
        Some(named)
    } else if 31 < shift {
        Some(Parameter::Shift)
    } else {
        None
    }
}
