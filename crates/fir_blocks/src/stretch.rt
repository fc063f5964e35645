//! Stretches of firings between two settings of taps.
ghost use Rattle.std.specs.Prelude.{◌≡◌, ◌≢◌, ◌+◌, ◌-◌, ◌*◌, ◌/◌, ◌^◌, ◌<◌, ◌≤◌, ℕ, [], length, map, drop, vec_len, vec_capacity};
ghost use Rattle.stream_model.specs.declared.vocabulary.ItemType.TheVariants.{Byte};
ghost use Rattle.stream_model.specs.Lists.{item, listed};
ghost use Rattle.stream_model.specs.Shapes.{taps_set};
ghost use Rattle.items.specs.Items.{type_of, numbers_of, spare_of};
ghost use Rattle.settings.specs.Values.{value_of, held_of};
ghost use Rattle.fir_blocks.specs.Polyphase.{phased, IsSized, taps_among, end_before, AreOverFirings};

use crate::polyphase::Polyphase;
use crate::tap_lane::TapLane;
use block_trait::{Held, Value};
use items::Items;
use numbers::vectors::append_copies;

// The taps that a value sets. A number sets none.
fn taps_in(value: &Value) -> &[i16]
    ensures { result.now ≡ taps_set (value_of value.now) }
{
    match value {
        Value::Number(_) => &[],
        Value::Taps(taps) => taps.as_slice(),
    }
}

// The first firing behind the stretch of setting `i`: a firing reads the setting at its first item.
fn end_of(held: &[Held], i: usize, taken: u64, end: u64) -> u64
    requires within { i < length held.now }
    requires takes { 1 ≤ taken }
    ensures { result ≡ end_before (drop (i + 1) (map held_of held.now)) taken end }
{
    match held.get(i + 1) {
        Some(next) => next.at.div_ceil(taken),
        None => end,
    }
}

// Writes what the firings from `start` to below `stop` give, under the same taps.
fn write_stretch<T: TapLane>(
    filter: &Polyphase,
    taps: &[i16],
    window: &[T],
    start: usize,
    stop: usize,
    count: usize,
    out: &mut [T],
)
    requires rises { start ≤ stop }
    requires within { stop ≤ count }
    requires sized { IsSized filter.now count (length window.now) (length out.old) }
    ensures written { (n : ℕ) → filter.now.given * start ≤ n → n < filter.now.given * stop
        → item (map T.number out.new) n ≡ phased T.kind filter.now taps.now (map T.number window.now) n }
    ensures kept { (n : ℕ) → n < filter.now.given * start → item (map T.number out.new) n
        ≡ item (map T.number out.old) n }
{
    let items = &window[filter.taken * start..filter.branch - 1 + filter.taken * stop];
    let outputs = &mut out[filter.given * start..filter.given * stop];
    filter.write(taps, items, stop - start, outputs);
}

// Writes what the firings give, in a stretch for each setting that is in force.
fn write_stretches<T: TapLane>(
    filter: &Polyphase,
    window: &[T],
    held: &[Held],
    first: u64,
    count: usize,
    out: &mut [T],
)
    requires over { AreOverFirings filter.now.taken first (first + count) (map held_of held.now) }
    requires small { first + count < 2 ^ 63 }
    requires sized { IsSized filter.now count (length window.now) (length out.old) }
    ensures { map T.number out.new ≡ listed (filter.now.given * count)
        (λ n. phased T.kind filter.now (taps_among (map held_of held.now)
        (filter.now.taken * (first + n / filter.now.given))) (map T.number window.now) n) }
{
    let end = first + count as u64;
    let mut at = first;
    for (i, setting) in held.iter().enumerate() {
        let next = end_of(held, i, filter.taken as u64, end);
        let start = (at - first) as usize;
        let stop = (next - first) as usize;
        write_stretch(
            filter,
            taps_in(&setting.value),
            window,
            start,
            stop,
            count,
            out,
        );
        at = next;
    }
}

fn filter_lanes<T: TapLane>(
    filter: &Polyphase,
    window: &[T],
    held: &[Held],
    first: u64,
    count: usize,
    out: &mut Vec<T>,
)
    requires over { AreOverFirings filter.now.taken first (first + count) (map held_of held.now) }
    requires small { first + count < 2 ^ 63 }
    requires empty { map T.number out.old.items ≡ [] }
    requires takes { length window.now ≡ filter.now.branch - 1 + filter.now.taken * count }
    requires room { filter.now.given * count ≤ vec_capacity out.old - vec_len out.old }
    ensures items { map T.number out.new.items ≡ listed (filter.now.given * count)
        (λ n. phased T.kind filter.now (taps_among (map held_of held.now)
        (filter.now.taken * (first + n / filter.now.given))) (map T.number window.now) n) }
    ensures capacity { vec_capacity out.old ≤ vec_capacity out.new }
{
    append_copies(out, filter.given * count, T::narrow(0));
    write_stretches(filter, window, held, first, count, out);
}

/// Writes what the firings give into an empty `out` with room for it. `window` has the items that they take behind the
/// past, and `held` the settings over these.
pub(crate) fn filter_items(
    filter: &Polyphase,
    window: &Items,
    held: &[Held],
    first: u64,
    count: usize,
    out: &mut Items,
)
    requires kind { type_of window.now ≢ Byte }
    requires same_type { type_of window.now ≡ type_of out.old }
    requires over { AreOverFirings filter.now.taken first (first + count) (map held_of held.now) }
    requires small { first + count < 2 ^ 63 }
    requires empty { numbers_of out.old ≡ [] }
    requires takes { length (numbers_of window.now) ≡ filter.now.branch - 1 + filter.now.taken * count }
    requires room { filter.now.given * count ≤ spare_of out.old }
    ensures item_type { type_of out.new ≡ type_of out.old }
    ensures numbers { numbers_of out.new ≡ listed (filter.now.given * count)
        (λ n. phased (type_of window.now) filter.now (taps_among (map held_of held.now)
        (filter.now.taken * (first + n / filter.now.given))) (numbers_of window.now) n) }
    ensures room { spare_of out.old ≤ spare_of out.new + length (numbers_of out.new) }
{
    match (window, out) {
        (Items::Short(window), Items::Short(out)) => filter_lanes(
            filter, window, held, first, count, out,
        ),
        (Items::Int(window), Items::Int(out)) => filter_lanes(
            filter, window, held, first, count, out,
        ),
        _ => unreachable!(),
    }
}
