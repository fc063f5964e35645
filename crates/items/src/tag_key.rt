//! The key of a tag.
ghost use Rattle.std.specs.Prelude.{◌≡◌, ◌↔◌, refl, nat_eq, IsSome, IfSome, Some};
ghost use Rattle.std.specs.Ordering.{nat_cmp};
ghost use Rattle.std.specs.Cmp.{partial_equiv_from_equiv};
ghost use Rattle.std.specs.Cmp.Lexicographic.{pointwise, slice_cmp, nat_list_eq_equiv, nat_list_cmp_total, texts_po, texts_ties};
ghost use Rattle.items.specs.Name.{IsName};

use crate::is_name;
use std::cmp::Ordering;
use std::marker::Model;

/// How many bytes a key has at most.
const MOST: usize = 16;

/// The key of a tag: 1 to 16 bytes, each an ASCII letter, a digit, `_`, `.` or `-`. A contract sees it as its bytes.
#[derive(Clone, Copy, Debug)]
pub struct TagKey {
    bytes: [u8; MOST],
    len: u8,
}

impl Model for TagKey {
    ghost use Rattle.std.specs.Prelude.{ℕ, ◌-◌, ◌++◌, List, length, take, replicate};
    ghost use Rattle.std.proofs.Common.{◌∙◌, ap, sym, arith, length-take-le};
    ghost use Rattle.items.specs.Padded.{IsPadded};

    ghost Value = { List ℕ };

    ghost view = { λ k. take k.len k.bytes };

    // The places behind the key hold zeros, so that the key's bytes determine the fields.
    ghost invariant = { λ k. IsPadded k.bytes k.len };

    ghost inverse = { λ v. record { bytes = v ++ replicate (16 - length v) 0; len = length v } };

    ghost inverse_ok = { λ k h.
        let same = length-take-le k.len k.bytes (omega (arith, h.short, h.whole)) in
        λ i. record {
          bytes = (ap (λ n. take k.len k.bytes ++ replicate (16 - n) 0) same ∙ sym h.zeros) i;
          len = same i;
        } };
}

impl TagKey {
    /// The key of these bytes, or `None` where they are no name of 1 to 16 bytes. It takes no memory.
    pub fn new(bytes: &[u8]) -> Option<TagKey>
        ensures variant { IsSome result ↔ IsName 16 bytes.now }
        ensures value { IfSome result (λ key. key ≡ bytes.now) }
    {
        if !is_name(bytes, MOST) {
            return None;
        }
        let mut padded = [0; MOST];
        padded[..bytes.len()].copy_from_slice(bytes);
        Some(TagKey {
            bytes: padded,
            len: bytes.len() as u8,
        })
    }

    /// The key's bytes.
    pub fn bytes(&self) -> &[u8]
        ensures value { result.now ≡ self.now }
        ensures name { IsName 16 self.now }
    {
        &self.bytes[..usize::from(self.len)]
    }
}

impl PartialEq for TagKey {
    ghost eq = { pointwise nat_eq };

    ghost laws = { partial_equiv_from_equiv nat_list_eq_equiv };

    fn eq(&self, other: &TagKey) -> bool {
        self.bytes() == other.bytes()
    }
}

impl Eq for TagKey {
    ghost laws = { nat_list_eq_equiv };
}

/// By the bytes, the first that differs deciding. A key comes before those that it begins.
impl PartialOrd for TagKey {
    ghost partial_cmp = { λ a b. Some (slice_cmp nat_cmp a b) };

    ghost laws = { texts_po };

    fn partial_cmp(&self, other: &TagKey) -> Option<Ordering> {
        Some(self.cmp(other))
    }
}

/// By the bytes, the first that differs deciding. A key comes before those that it begins.
impl Ord for TagKey {
    ghost cmp = { slice_cmp nat_cmp };

    ghost total = { nat_list_cmp_total };

    ghost matches_partial_cmp = { λ a b. refl };

    ghost matches_eq = { texts_ties };

    fn cmp(&self, other: &TagKey) -> Ordering {
        self.bytes().cmp(other.bytes())
    }
}
