//! The filter that gives `interpolation` items for each of its input.

use crate::filter::Filter;
use crate::filter_rate::FilterRate;
use crate::polyphase::Polyphase;
use block_parameters::Parameter;

/// An interpolating filter, as GNU Radio's `interp_fir_filter_xxx` over integers: for each item it gives
/// `interpolation` items, one by each branch of the taps (polyphase).
pub type InterpFir = Filter<Interpolation>;

/// The rate is how many items a firing gives.
#[derive(Clone, Copy)]
pub struct Interpolation;

impl FilterRate for Interpolation {
    ghost use Rattle.std.specs.Prelude.{refl};
    ghost use Rattle.kind_model.specs.Filters.{interp_fir};
    ghost use Rattle.block_parameters.specs.declared.fault.Parameter.TheVariants as parameters;
    ghost use Rattle.kind_laws.specs.Filters.{interp_fir-lawful};

    ghost equation = { interp_fir };

    ghost named = { parameters.Interpolation };

    fn name() -> Parameter {
        Parameter::Interpolation
    }

    fn polyphase(taps: &[i16], rate: u64, shift: u32) -> Polyphase {
        let given = rate as usize;
        Polyphase {
            taken: 1,
            given,
            branch: (taps.len() + given - 1) / given,
            shift,
        }
    }

    ghost single = { λ _ _ _ _. record { in_least = refl; in_most = refl; out_least = refl; out_most = refl } };

    ghost lawful = { interp_fir-lawful };
}
