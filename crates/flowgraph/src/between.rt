//! How many items firings take and give, from one firing to another.
ghost use Rattle.std.specs.Prelude.{◌≡◌, ◌≤◌, ◌<◌, ◌*◌, ◌-◌, ◌^◌};
ghost use Rattle.block_trait.specs.Shape.{taken_at, given_at};

use block_trait::Pace;

/// How many items base firings `from` to below `to` take.
pub fn taken_between(pace: Pace, from: u64, to: u64) -> u64
    requires ordered { from ≤ to }
    requires fits { taken_at pace to < 2 ^ 63 }
    ensures { result ≡ taken_at pace to - taken_at pace from }
{
    match pace {
        Pace::Rate(taken, _) | Pace::Turns(taken, _, _) | Pace::Placed(taken, _) => {
            times(taken, from, to)
        }
        Pace::Skip(_) => to - from,
        Pace::Delay(count) => to.saturating_sub(count) - from.saturating_sub(count),
    }
}

/// How many items they give on each output.
pub fn given_between(pace: Pace, from: u64, to: u64) -> u64
    requires ordered { from ≤ to }
    requires fits { given_at pace to < 2 ^ 63 }
    ensures { result ≡ given_at pace to - given_at pace from }
{
    match pace {
        Pace::Rate(_, given) | Pace::Turns(_, given, _) | Pace::Placed(_, given) => {
            times(given, from, to)
        }
        Pace::Skip(count) => to.saturating_sub(count) - from.saturating_sub(count),
        Pace::Delay(_) => to - from,
    }
}

// So many items for each firing.
fn times(items: u64, from: u64, to: u64) -> u64
    requires ordered { from ≤ to }
    requires fits { items * to < 2 ^ 63 }
    ensures { result ≡ items * to - items * from }
{
    items * (to - from)
}
