//! How often the blocks fire in an iteration: the least whole numbers in their ratios.

ghost use Rattle.std.specs.Prelude.{◌≡◌, ◌≤◌, ◌*◌, ◌/◌, ◌==◌, map, false, IfOk, IsTrue};
ghost use Rattle.std.specs.List.{list_all};
ghost use Rattle.stream_model.specs.Network.{Network};
ghost use Rattle.graph_model.specs.Rates.{lcm as lcm_of, holds_on, firings_of, are_few};
ghost use Rattle.rates.specs.Tables.{ratio_of, AreMeasured, AreAgreed, CanBeWhole, AreWholes, CanFire, CanFill, CanTotal, AreFirings, AreFound};

use crate::LIMIT;
use crate::fraction::{Fraction, gcd};
use crate::tables::{Link, Supply};
use std::alloc::{AllocError, Global};

/// With a greater whole number a block of the part fires more often than the limit: no denominator is above the limit.
const MOST_WHOLE: u64 = 8_589_934_592;

/// Whether ends with these ratios put as many items on a connection as they take.
fn agree(u: Fraction, v: Fraction, link: Link) -> bool
    requires { AreMeasured u v link }
    ensures { result ≡ (u.over * link.gives * v.under == v.over * link.takes * u.under) }
{
    u.over * link.gives * v.under == v.over * link.takes * u.under
}

/// Whether as many items are put on each connection as are taken.
pub fn all_hold(links: &[Link], ratios: &[Fraction]) -> bool
    ghost net: { Network }
    requires { AreAgreed net links.now ratios.now }
    ensures { result ≡ list_all (holds_on net (map ratio_of ratios.now)) net.connections }
{
    for link in links {
        if !agree(ratios[link.from], ratios[link.to], *link) {
            return false;
        }
    }
    true
}

/// The least common multiple.
fn lcm(a: u64, b: u64) -> u64
    requires some { 1 ≤ a }
    requires few { (a ≤ 8589934592) × (b ≤ 65536) }
    ensures { result ≡ lcm_of a b }
{
    a / gcd(a, b) * b
}

/// Finds the least common multiple of each part's denominators. It returns false if one is so great that a block would
/// fire too often.
fn find_wholes(ratios: &[Fraction], wholes: &mut [u64]) -> bool
    ghost net: { Network }
    requires { CanBeWhole net ratios.now wholes.old }
    ensures found { IsTrue result → AreWholes net ratios.now wholes.new }
    ensures large { result ≡ false → are_few net (firings_of (map ratio_of ratios.now)) ≡ false }
{
    for ratio in ratios {
        let whole = lcm(wholes[ratio.part], ratio.under);
        if whole > MOST_WHOLE {
            return false;
        }
        wholes[ratio.part] = whole;
    }
    true
}

/// The firings of a block whose part has such a whole number.
fn count(whole: u64, ratio: Fraction) -> u64
    requires some { 1 ≤ ratio.under }
    requires few { (whole ≤ 8589934592) × (ratio.over ≤ 65536) }
    ensures { result ≡ whole / ratio.under * ratio.over }
{
    whole / ratio.under * ratio.over
}

/// Finds the firings of each block. It returns false if these, or the items that they give, are more than the limit.
fn find_firings(
    supplies: &[Supply],
    ratios: &[Fraction],
    wholes: &[u64],
    firings: &mut [u32],
) -> bool
    ghost net: { Network }
    requires { CanFire net supplies.now ratios.now wholes.now firings.old }
    ensures found { IsTrue result → AreFirings net ratios.now firings.new }
    ensures large { result ≡ false → are_few net (firings_of (map ratio_of ratios.now)) ≡ false }
{
    for (block, ratio) in ratios.iter().enumerate() {
        let fires = count(wholes[ratio.part], *ratio);
        if fires > LIMIT || fires * supplies[block].gives > LIMIT {
            return false;
        }
        firings[block] = fires as u32;
    }
    true
}

/// Fills in the firings of each block, and the whole numbers of the parts. It returns false if these or the items are
/// too many.
fn fill(supplies: &[Supply], ratios: &[Fraction], wholes: &mut [u64], firings: &mut [u32]) -> bool
    ghost net: { Network }
    requires { CanFill net supplies.now ratios.now wholes.old firings.old }
    ensures found { IsTrue result → AreFirings net ratios.now firings.new }
    ensures large { result ≡ false → are_few net (firings_of (map ratio_of ratios.now)) ≡ false }
{
    find_wholes(ratios, wholes) && find_firings(supplies, ratios, wholes, firings)
}

/// The firings of each block in an iteration; `None` if these, or the items that they give, are too many.
pub fn firings(
    alloc: Global,
    supplies: &[Supply],
    ratios: &[Fraction],
) -> Result<Option<Vec<u32>>, AllocError>
    ghost net: { Network }
    requires { CanTotal net supplies.now ratios.now }
    ensures { IfOk result (AreFound net ratios.now) }
{
    let mut wholes: Vec<u64> = vec![in alloc; 1; ratios.len()]?;
    let mut firings: Vec<u32> = vec![in alloc; 0; ratios.len()]?;
    if fill(supplies, ratios, &mut wholes, &mut firings) {
        Ok(Some(firings))
    } else {
        Ok(None)
    }
}
