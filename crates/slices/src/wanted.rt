//! Where a slice has to begin or end to give the wanted items.

ghost use Rattle.std.specs.Prelude.{◌≡◌, ◌<◌, ◌≤◌, ℕ};
ghost use Rattle.slices.specs.Wanted.{got_after, wanted_at, IsLastBegin, IsFirstEnd};

use crate::MOST_ITERATIONS;
use crate::plan::{Plan, Sink};

// The last iteration from the overlap on after which a sink has got at most so many items; 0 if it has got more by the
// overlap.
fn last_within(sink: &Sink, overlap: u64, items: u64) -> u64
    ensures last { (j : ℕ) → overlap ≤ j → j ≤ MOST_ITERATIONS → got_after overlap sink.now j ≤ items → j ≤ result }
    ensures within { (j : ℕ) → 1 ≤ j → overlap ≤ j → j ≤ result → got_after overlap sink.now j ≤ items }
{
    if items < sink.drop {
        return 0;
    }
    match (items - sink.drop).checked_div(sink.period) {
        Some(more) => overlap.saturating_add(more),
        None => u64::MAX,
    }
}

// The first iteration from the overlap on after which a sink has got so many items; the greatest number if it never
// has.
fn first_with(sink: &Sink, overlap: u64, items: u64) -> u64
    ensures behind { overlap ≤ result }
    ensures first { (j : ℕ) → overlap ≤ j → j ≤ 18446744073709551615 → items ≤ got_after overlap sink.now j
        → result ≤ j }
    ensures with { (j : ℕ) → result ≤ j → result < 18446744073709551615 → items ≤ got_after overlap sink.now j }
{
    let lacks = items.saturating_sub(sink.drop);
    if lacks == 0 {
        return overlap;
    }
    if sink.period == 0 {
        return u64::MAX;
    }
    overlap.saturating_add(lacks.div_ceil(sink.period))
}

// What is wanted of the sink at a place; 0 if the list has no number for it.
fn wanted(items: &[u64], at: usize) -> u64
    ensures { result ≡ wanted_at items.now at }
{
    if at < items.len() { items[at] } else { 0 }
}

impl Plan {
    /// The last iteration at which a slice may begin so that its own items include, for each sink, the item of this
    /// number and all after it. It is 0, or lies at or after the overlap. The sinks are those of the plan, in its
    /// order.
    pub fn last_begin(&self, starts: &[u64]) -> u64
        ensures { IsLastBegin self.now starts.now result }
    {
        let mut last = MOST_ITERATIONS;
        for at in 0..self.sinks.len() {
            last = last.min(last_within(&self.sinks[at], self.overlap, wanted(starts, at)));
        }
        if self.overlap <= last { last } else { 0 }
    }

    /// The first iteration from the overlap on after which each sink has got so many items; the greatest number if one
    /// never has.
    pub fn first_end(&self, ends: &[u64]) -> u64
        ensures { IsFirstEnd self.now ends.now result }
    {
        let mut first = self.overlap;
        for at in 0..self.sinks.len() {
            first = first.max(first_with(&self.sinks[at], self.overlap, wanted(ends, at)));
        }
        first
    }
}
