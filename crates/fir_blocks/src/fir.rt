//! The filter that gives one item for each `decimation` of its input.

use crate::filter::Filter;
use crate::filter_rate::FilterRate;
use crate::polyphase::Polyphase;
use block_parameters::Parameter;

/// A filter that gives one item for each `decimation` of its input, as GNU Radio's `fir_filter_xxx` over integers.
pub type Fir = Filter<Decimation>;

/// The rate is how many items a firing takes.
#[derive(Clone, Copy)]
pub struct Decimation;

impl FilterRate for Decimation {
    ghost use Rattle.std.specs.Prelude.{refl};
    ghost use Rattle.kind_model.specs.Filters.{fir};
    ghost use Rattle.block_parameters.specs.declared.fault.Parameter.TheVariants as parameters;
    ghost use Rattle.kind_laws.specs.Filters.{fir-lawful};

    ghost equation = { fir };

    ghost named = { parameters.Decimation };

    fn name() -> Parameter {
        Parameter::Decimation
    }

    fn polyphase(taps: &[i16], rate: u64, shift: u32) -> Polyphase {
        Polyphase {
            taken: rate as usize,
            given: 1,
            branch: taps.len(),
            shift,
        }
    }

    ghost single = { λ _ _ _ _. record { in_least = refl; in_most = refl; out_least = refl; out_most = refl } };

    ghost lawful = { fir-lawful };
}
