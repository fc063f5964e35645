//! How often the blocks have fired after each iteration of the sources, and how far writers get ahead of their readers.

ghost use Rattle.std.specs.Prelude.{◌≡◌, ◌≤◌, ◌*◌, ◌+◌, ◌-◌, length, All, false, IsTrue};
ghost use Rattle.stream_model.specs.Network.{Network};
ghost use Rattle.stream_model.specs.Firings.{allowed_by};
ghost use Rattle.rates.specs.Counts.{given_of, taken_of, delay_of, AreHeld, IsLead, AreOrdered, CanAdvance, HasAdvanced, IsFar, AreStarted, CanStep, CanPass};

use crate::LIMIT;
use crate::tables::{Link, Supply};
use stream_model::Shift;

/// How many items so many firings give.
fn given(shift: Shift, gives: u64, firings: u64) -> u64
    requires { (gives ≤ 65536) × (firings ≤ 8589934592) }
    ensures { result ≡ given_of shift gives firings }
{
    match shift {
        Shift::No => gives * firings,
        Shift::Skip(count) => firings.saturating_sub(count),
        Shift::Delay(_) => firings,
    }
}

/// How many items so many firings take.
fn taken(shift: Shift, takes: u64, firings: u64) -> u64
    requires { (takes ≤ 65536) × (firings ≤ 8589934592) }
    ensures { result ≡ taken_of shift takes firings }
{
    match shift {
        Shift::No => takes * firings,
        Shift::Skip(_) => firings,
        Shift::Delay(count) => firings.saturating_sub(count),
    }
}

/// How many firings so many items allow.
fn allowed(shift: Shift, takes: u64, items: u64) -> u64
    requires some { 1 ≤ takes }
    requires few { (delay_of shift ≤ 65536) × (items ≤ 562949953421312) }
    ensures { result ≡ allowed_by shift takes items }
{
    match shift {
        Shift::No => items / takes,
        Shift::Skip(_) => items,
        Shift::Delay(count) => items + count,
    }
}

/// What a connection says in a step.
#[derive(Clone, Copy, Drop)]
pub struct Lead {
    /// How many items the writer, after the step, is ahead of the reader as it was before the step.
    pub ahead: u64,
    /// How many firings the writer's items allow the reader.
    pub allowed: u64,
}

/// Looks at a connection whose reader has fired `before` times before the step, and whose writer has fired `after`
/// times with the step.
fn follow(writer: Shift, reader: Shift, link: Link, before: u64, after: u64) -> Lead
    requires { AreHeld writer reader link before after }
    ensures { IsLead writer reader link before after result }
{
    let items = given(writer, link.gives, after);
    Lead {
        ahead: items.saturating_sub(taken(reader, link.takes, before)),
        allowed: allowed(reader, link.takes, items),
    }
}

/// Begins a step: a source has fired as often as its iterations ask, and nothing is known yet of other blocks.
pub fn start(supplies: &[Supply], firings: &[u32], step: u64, after: &mut [u64])
    ghost net: { Network }
    requires { CanStep net supplies.now firings.now step after.old }
    ensures { AreStarted net firings.now step after.new }
{
    for (block, supply) in supplies.iter().enumerate() {
        after[block] = if supply.source {
            step * u64::from(firings[block])
        } else {
            u64::MAX
        };
    }
}

/// Follows the connections in order. Each reader fires as often as all its writers allow. It ends early if a writer is
/// too far ahead.
pub fn pass(
    supplies: &[Supply],
    links: &[Link],
    order: &[usize],
    firings: &[u32],
    step: u64,
    before: &[u64],
    after: &mut [u64],
    needed: &mut [u64],
) -> bool
    ghost net: { Network }
    requires { CanPass net supplies.now links.now order.now firings.now step before.now after.old needed.old }
    ensures done { IsTrue result → HasAdvanced net firings.now step after.new needed.old needed.new }
    ensures far { result ≡ false → IsFar net firings.now step }
{
    for number in order {
        let link = links[*number];
        let f = follow(
            supplies[link.from].shift,
            supplies[link.to].shift,
            link,
            before[link.to],
            after[link.from],
        );
        if f.ahead > LIMIT {
            return false;
        }
        needed[*number] = needed[*number].max(f.ahead);
        after[link.to] = after[link.to].min(f.allowed);
    }
    true
}
