//! Places of bytes, and the parts between them.
ghost use Rattle.std.specs.Prelude.{◌≡◌, ◌≢◌, ℕ, ◌<◌, ◌≤◌, [], ◌∷◌, length, slice_index, IfSome, IfNone};
ghost use Rattle.std.specs.Option.{option_map};
ghost use Rattle.script_text.specs.Fields as fields;
ghost use Rattle.script_text.specs.Fields.{fields_of};
ghost use Rattle.script_text.specs.Lines as lines;

const SPACE: u8 = b' ';

/// Where the byte first stands at or after a place, or the number of bytes.
pub fn position_from(bytes: &[u8], from: usize, byte: u8) -> usize
    requires { from ≤ length bytes.now }
    ensures after { from ≤ result }
    ensures within { result ≤ length bytes.now }
    ensures before { (k : ℕ) → from ≤ k → k < result → slice_index bytes.now k ≢ byte }
    ensures found { result < length bytes.now → slice_index bytes.now result ≡ byte }
{
    let mut place = from;
    while place < bytes.len() && bytes[place] != byte {
        place += 1;
    }
    place
}

/// What stands before the first such byte, and what after it.
pub fn cut_at(bytes: &[u8], byte: u8) -> Option<(&[u8], &[u8])>
    ensures { option_map (λ cut. (cut.0.now, cut.1.now)) result ≡ fields.cut_at byte bytes.now }
{
    let place = position_from(bytes, 0, byte);
    if place < bytes.len() {
        Some((&bytes[..place], &bytes[place + 1..]))
    } else {
        None
    }
}

/// The first field, and what comes after it.
pub fn next_field(bytes: &[u8]) -> Option<(&[u8], &[u8])>
    ensures none { IfNone result (fields_of bytes.now ≡ []) }
    ensures found { IfSome result (λ cut. fields_of bytes.now ≡ cut.0.now ∷ fields_of cut.1.now) }
    ensures shorter { IfSome result (λ cut. length cut.1.now < length bytes.now) }
{
    let start = spaces_before(bytes);
    if start == bytes.len() {
        return None;
    }
    let end = position_from(bytes, start, SPACE);
    Some((&bytes[start..end], &bytes[end..]))
}

/// Whether the bytes begin with this one.
pub fn begins_with(bytes: &[u8], byte: u8) -> bool
    ensures { result ≡ lines.begins_with byte bytes.now }
{
    bytes.len() > 0 && bytes[0] == byte
}

// How many spaces come first.
fn spaces_before(bytes: &[u8]) -> usize
    ensures within { result ≤ length bytes.now }
    ensures spaces { (k : ℕ) → k < result → slice_index bytes.now k ≡ 32 }
    ensures other { result < length bytes.now → slice_index bytes.now result ≢ 32 }
{
    let mut place = 0;
    while place < bytes.len() && bytes[place] == SPACE {
        place += 1;
    }
    place
}
