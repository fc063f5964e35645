//! The ratios in which the blocks of a graph fire.

ghost use Rattle.std.specs.Prelude.{◌≡◌, length, filter_map, position, is_none, slice_get, false, Some, None, IfOk, IfSome, IsTrue};
ghost use Rattle.stream_model.specs.Network.{Network};
ghost use Rattle.graph_model.specs.Rates.{next_ratio as next_ratio_of, told_by, ratios_of};
ghost use Rattle.rates.specs.Tables.{CanTell, CanStart, IsTable, known_of, told_of, IsTold, AreSmall, AreRatios};

use crate::LIMIT;
use crate::fraction::{Fraction, times};
use crate::tables::Link;
use std::alloc::{AllocError, Global};

/// The ratio that the first connection with exactly one known end, in the order of connecting, gives the block at its
/// other end.
fn told(links: &[Link], known: &[Option<Fraction>]) -> Option<(usize, Fraction)>
    ghost net: { Network }
    requires { CanTell net links.now known.now }
    ensures first { told_of result ≡ slice_get (filter_map (told_by net (known_of known.now)) net.connections) 0 }
    ensures fits { IfSome result (IsTold net) }
{
    for link in links {
        match (known[link.from], known[link.to]) {
            (Some(f), None) => return Some((link.to, times(f, link.gives, link.takes))),
            (None, Some(f)) => return Some((link.from, times(f, link.takes, link.gives))),
            (Some(_f), Some(_g)) => {}
            (None, None) => {}
        }
    }
    None
}

/// The lowest block without a ratio.
fn first_unknown(known: &[Option<Fraction>]) -> Option<usize>
    ensures { result ≡ position is_none known.now }
{
    known.iter().position(|f| f.is_none())
}

/// The next ratio and its block: the ratio that a connection gives, or else 1 for the lowest block without a ratio.
fn next_ratio(links: &[Link], known: &[Option<Fraction>]) -> Option<(usize, Fraction)>
    ghost net: { Network }
    requires { CanTell net links.now known.now }
    ensures next { told_of result ≡ next_ratio_of net (known_of known.now) }
    ensures fits { IfSome result (IsTold net) }
{
    match told(links, known) {
        Some(t) => Some(t),
        None => match first_unknown(known) {
            Some(block) => Some((
                block,
                Fraction {
                    part: block,
                    over: 1,
                    under: 1,
                },
            )),
            None => None,
        },
    }
}

/// Finds the ratios, one block in each turn. It returns false if one is too large.
fn find_ratios(links: &[Link], known: &mut [Option<Fraction>]) -> bool
    ghost net: { Network }
    requires { CanStart net links.now known.old }
    ensures found { IsTrue result → ratios_of net ≡ Some (filter_map (λ r. r) (known_of known.new)) }
    ensures large { result ≡ false → ratios_of net ≡ None }
    ensures small { AreSmall (length net.nodes) known.new }
{
    for _turn in 0..known.len() {
        match next_ratio(links, known) {
            None => return true,
            Some((block, ratio)) => {
                if ratio.over > LIMIT || ratio.under > LIMIT {
                    return false;
                }
                known[block] = Some(ratio);
            }
        }
    }
    true
}

/// The known ratios, in order.
fn all_known(alloc: Global, known: &[Option<Fraction>]) -> Result<Vec<Fraction>, AllocError>
    ensures { IfOk result (λ v. v.items ≡ filter_map (λ f. f) known.now) }
{
    known.iter().filter_map(|f| *f).collect(alloc)
}

/// A ratio for each block, found in `known`; `None` if one has a numerator or denominator above the limit.
fn ratios_in(
    alloc: Global,
    links: &[Link],
    known: &mut [Option<Fraction>],
) -> Result<Option<Vec<Fraction>>, AllocError>
    ghost net: { Network }
    requires { CanStart net links.now known.old }
    ensures { IfOk result (AreRatios net) }
{
    if find_ratios(links, known) {
        Ok(Some(all_known(alloc, known)?))
    } else {
        Ok(None)
    }
}

/// A ratio for each block; `None` if one has a numerator or denominator above the limit.
pub fn ratios(
    alloc: Global,
    links: &[Link],
    blocks: usize,
) -> Result<Option<Vec<Fraction>>, AllocError>
    ghost net: { Network }
    requires { IsTable net links.now blocks }
    ensures { IfOk result (AreRatios net) }
{
    let mut known: Vec<Option<Fraction>> = vec![in alloc; None; blocks]?;
    ratios_in(alloc, links, &mut known)
}
