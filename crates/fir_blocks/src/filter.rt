//! Filters with taps.
ghost use Rattle.std.specs.Prelude.{◌≡◌, ◌≢◌, ◌≤◌, length, IfOk, IfErr, OnOk};
ghost use Rattle.stream_model.specs.declared.vocabulary.ItemType.TheVariants as types;

use crate::filter_rate::FilterRate;
use crate::first_bad::first_bad;
use crate::polyphase::Polyphase;
use crate::stretch::filter_items;
use block_parameters::ParamFault;
use block_trait::{Batch, Block, ByPace, Held, Setting, Shape, Single, ports, work_single};
use items::{ItemType, Items};
use numbers::vectors::narrowed;
use std::alloc::Global;
use std::marker::PhantomData;

/// A filter of finite impulse response over integers: each item that it gives is the exact sum of products of taps and
/// items up to the newest (the first tap with the newest), over `2 ^ shift`, rounded to the nearest (ties round up) and
/// clamped to the items' type. `R` says what its rate is. Its taps are in force until a setting replaces them.
#[derive(Drop)]
#[derive_where(Debug, PartialEq, Eq)]
pub struct Filter<R> {
    item: ItemType,
    taps: Vec<i16>,
    rate: u64,
    shift: u32,
    #[derive_where(skip)]
    kind: PhantomData<R>,
    ghost item_type: { item ≢ types.Byte },
    ghost some_taps: { 1 ≤ length taps.items },
    ghost few_taps: { length taps.items ≤ 256 },
    ghost some: { 1 ≤ rate },
    ghost few: { rate ≤ 1024 },
    ghost shifts: { shift ≤ 31 },
}

impl<R: FilterRate> Filter<R> {
    ghost use Rattle.fir_blocks.specs.Kinds.{filter_of};
    ghost use Rattle.fir_blocks.specs.Filters.{IsFilter};
    ghost use Rattle.fir_blocks.specs.Parameters.{AreParameters, IsRefusal};

    /// The filter of shorts or ints with a copy of 1 to 256 taps of 16 bits, a decimation or an interpolation of 1 to
    /// 1,024 and a shift of 0 to 31. `BadParameter` names the first that is not so, in this order; `Memory` comes only
    /// where the allocator refuses the copy.
    pub fn new(
        alloc: Global,
        item: ItemType,
        taps: &[i64],
        rate: u64,
        shift: u32,
    ) -> Result<Filter<R>, ParamFault>
        ensures meaning { IfOk result (λ block. filter_of R.equation block ≡ R.equation item taps.now rate shift) }
        ensures range { OnOk result (AreParameters item taps.now rate shift) }
        ensures fault { IfErr result (IsRefusal R.named item taps.now rate shift) }
    {
        if let Some(parameter) = first_bad(item, taps, R::name(), rate, shift) {
            return Err(ParamFault::BadParameter(parameter));
        }
        Ok(Filter {
            item,
            taps: narrowed(alloc, taps)?,
            rate,
            shift,
            kind: PhantomData,
        })
    }

    // How the filter goes over its items.
    fn polyphase(&self) -> Polyphase
        ensures { IsFilter (filter_of R.equation self.now) self.now.item self.now.taps.items result }
    {
        R::polyphase(&self.taps, self.rate, self.shift)
    }
}

impl<R: FilterRate> Single for Filter<R> {
    ghost use Rattle.fir_blocks.specs.Kinds.{filter_of};

    ghost equation = { filter_of R.equation };

    fn fill(&self, batch: &Batch<'_>, out: &mut Items) -> u64 {
        filter_items(
            &self.polyphase(),
            batch.window,
            batch.held,
            batch.first,
            batch.count as usize,
            out,
        );
        0
    }

    ghost single = { λ b. R.single b.item b.taps.items b.rate b.shift };
}

impl<R: FilterRate> Block for Filter<R> {
    ghost use Rattle.fir_blocks.specs.Kinds.{filter_of, filter-same};

    ghost meaning = { filter_of R.equation };

    type Places = ByPace;

    fn shape(&self, _input: usize) -> Shape<'_> {
        let filter = self.polyphase();
        let one = ports(1, self.item);
        Shape {
            history: filter.branch as u32,
            setting: Setting::Taps(&self.taps),
            ..Shape::at_rate(one, one, filter.taken as u64, filter.given as u64)
        }
    }

    fn work(
        &self,
        state: u64,
        first: u64,
        count: u64,
        windows: &[Items],
        held: &[Held],
        out: &mut [Items],
    ) -> u64 {
        work_single(self, state, first, count, windows, held, out)
    }

    ghost lawful = { λ b. R.lawful b.item b.taps.items b.rate b.shift b.some_taps b.some b.few };

    ghost same = { filter-same R.equation };
}
