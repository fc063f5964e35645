//! The blocks that encode items by the laws of ITU-T G.711.
ghost use Rattle.std.specs.Prelude.{◌≡◌, ◌≤◌, ◌-◌, pos, min, unsigned_abs, int_lt, nat_le, if◌then◌else◌};
ghost use Rattle.kind_model.specs.Math.{ulaw_encode, alaw_encode, mu_law, a_law, a_law_parts, segment, interval};

use crate::to_bytes::{MakesByte, ToBytes, int_of};
use items::ItemType;
use numbers::Number;

/// The byte of each item by the mu-law, as GNU Radio's `ulaw_encode_sb`, which takes shorts. An int outside their range
/// gives the byte of the nearest.
pub type UlawEncode = ToBytes<MuLaw>;

/// The byte of each item by the A-law, as GNU Radio's `alaw_encode_sb`, which takes shorts. An int outside their range
/// gives the byte of the nearest. For the numbers from -7 to -1, which are next to 0, GNU Radio's block gives the byte
/// of -248; here they have that of -8.
pub type AlawEncode = ToBytes<ALaw>;

/// The mu-law.
#[derive(Debug, Drop, PartialEq, Eq)]
pub struct MuLaw {
    item: ItemType,
}

/// The A-law.
#[derive(Debug, Drop, PartialEq, Eq)]
pub struct ALaw {
    item: ItemType,
}

impl UlawEncode {
    /// The block for items of this type.
    pub fn new(item: ItemType) -> UlawEncode
        ensures { ulaw_encode result.makes.item ≡ ulaw_encode item }
    {
        ToBytes {
            makes: MuLaw { item },
        }
    }
}

impl AlawEncode {
    /// The block for items of this type.
    pub fn new(item: ItemType) -> AlawEncode
        ensures { alaw_encode result.makes.item ≡ alaw_encode item }
    {
        ToBytes {
            makes: ALaw { item },
        }
    }
}

// 1 where the magnitude is at least a power of two, and else 0.
#[inline(always)]
fn reaches(magnitude: u32, power: u32) -> u32
    ensures { result ≡ (if nat_le power magnitude then 1 else 0) }
{
    if power <= magnitude { 1 } else { 0 }
}

// The segment of a magnitude. It compares with each power of two, and so needs no branch.
#[inline(always)]
fn segment_of(magnitude: u32) -> u32
    ensures is { result ≡ segment magnitude }
    ensures few { result ≤ 7 }
{
    reaches(magnitude, 256)
        + reaches(magnitude, 512)
        + reaches(magnitude, 1_024)
        + reaches(magnitude, 2_048)
        + reaches(magnitude, 4_096)
        + reaches(magnitude, 8_192)
        + reaches(magnitude, 16_384)
}

// The interval of a magnitude in a segment.
#[inline(always)]
fn interval_of(segment: u32, magnitude: u32) -> u32
    requires { segment ≤ 7 }
    ensures is { result ≡ interval segment magnitude }
    ensures few { result ≤ 15 }
{
    (magnitude >> (segment + 3)) % 16
}

// The byte of a number by the mu-law.
#[inline(always)]
fn mu_law_byte(number: i32) -> u8
    ensures { pos result ≡ mu_law number }
{
    let magnitude = (number.unsigned_abs() + 132).min(32_767);
    let segment = segment_of(magnitude);
    let code = 16 * segment + interval_of(segment, magnitude);
    let sign = if number < 0 { 127 } else { 255 };
    (sign - code) as u8
}

// Sign, segment and interval of a magnitude by the A-law.
#[inline(always)]
fn a_law_code(sign: u32, magnitude: u32) -> u32
    requires { sign ≤ 128 }
    ensures is { result ≡ a_law_parts sign magnitude }
    ensures few { result ≤ 255 }
{
    let segment = segment_of(magnitude);
    sign + (16 * segment + interval_of(segment.max(1), magnitude))
}

// The sign of a number by the A-law.
#[inline(always)]
fn a_law_sign(number: i32) -> u32
    ensures is { result ≡ (if int_lt number (pos 0) then 0 else 128) }
    ensures few { result ≤ 128 }
{
    if number < 0 { 0 } else { 128 }
}

// The magnitude of a number by the A-law.
#[inline(always)]
fn a_law_magnitude(number: i32) -> u32
    ensures { result ≡ min (if int_lt number (pos 0) then unsigned_abs number - 8 else unsigned_abs number) 32767 }
{
    let magnitude = number.unsigned_abs();
    let distance = if number < 0 {
        magnitude.saturating_sub(8)
    } else {
        magnitude
    };
    distance.min(32_767)
}

// The byte of a number by the A-law.
#[inline(always)]
fn a_law_byte(number: i32) -> u8
    ensures { pos result ≡ a_law number }
{
    let code = a_law_code(a_law_sign(number), a_law_magnitude(number));
    (code as u8) ^ 85
}

impl MakesByte for MuLaw {
    ghost use Rattle.std.specs.Prelude.{refl};
    ghost use Rattle.kind_laws.specs.Math.{ulaw_encode-lawful};
    ghost use Rattle.block_trait.specs.SameItem.{same_item};

    ghost takes = { λ m. m.item };

    ghost gives = { λ m. mu_law };

    ghost equation = { λ m. ulaw_encode m.item };

    fn item(&self) -> ItemType {
        self.item
    }

    #[inline(always)]
    fn byte_of<T: Number>(&self, item: T) -> u8 {
        mu_law_byte(int_of(item))
    }

    ghost is_made = { λ m. refl };

    ghost lawful = { λ m. ulaw_encode-lawful m.item };

    ghost same = { λ m n e i. ulaw_encode (same_item m.item n.item e i) };
}

impl MakesByte for ALaw {
    ghost use Rattle.std.specs.Prelude.{refl};
    ghost use Rattle.kind_laws.specs.Math.{alaw_encode-lawful};
    ghost use Rattle.block_trait.specs.SameItem.{same_item};

    ghost takes = { λ m. m.item };

    ghost gives = { λ m. a_law };

    ghost equation = { λ m. alaw_encode m.item };

    fn item(&self) -> ItemType {
        self.item
    }

    #[inline(always)]
    fn byte_of<T: Number>(&self, item: T) -> u8 {
        a_law_byte(int_of(item))
    }

    ghost is_made = { λ m. refl };

    ghost lawful = { λ m. alaw_encode-lawful m.item };

    ghost same = { λ m n e i. alaw_encode (same_item m.item n.item e i) };
}
