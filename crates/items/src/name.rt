//! Names: short texts of few characters.
ghost use Rattle.std.specs.Prelude.{◌≡◌, ◌↔◌, IsTrue};
ghost use Rattle.items.specs.Name.{is_name_byte, IsName};

/// Whether the bytes are a name of 1 to `most` bytes, each an ASCII letter, a digit, `_`, `.` or `-`.
pub fn is_name(bytes: &[u8], most: usize) -> bool
    ensures { IsTrue result ↔ IsName most bytes.now }
{
    !bytes.is_empty() && bytes.len() <= most && bytes.iter().all(|b| may_stand(*b))
}

fn may_stand(byte: u8) -> bool
    ensures { result ≡ is_name_byte byte }
{
    byte.is_ascii_alphanumeric() || byte == b'_' || byte == b'.' || byte == b'-'
}
