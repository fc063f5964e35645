//! Access codes as texts of binary digits.
ghost use Rattle.std.specs.Prelude.{◌≡◌, ◌<◌, ◌^◌, length, true};
ghost use Rattle.std.specs.List.{list_all};
ghost use Rattle.kind_schema.specs.Tables.{code_from};
ghost use Rattle.kind_schema.specs.Ranges as ranges;

/// Whether a text has 1 to 64 binary digits.
pub(crate) fn is_code(text: &[u8]) -> bool
    ensures { result ≡ ranges.is_code text.now }
{
    1 <= text.len() && text.len() <= 64 && are_digits(text)
}

fn are_digits(text: &[u8]) -> bool
    ensures { result ≡ list_all (ranges.is_within 48 49) text.now }
{
    text.iter().all(|digit| b'0' <= *digit && *digit <= b'1')
}

/// The number whose digits a text has, the highest first.
pub(crate) fn code_of(text: &[u8]) -> u64
    requires { ranges.is_code text.now ≡ true }
    ensures code { result ≡ code_from 0 text.now }
    ensures below { result < 2 ^ length text.now }
{
    let mut code = 0u64;
    for digit in text {
        code = 2 * code + u64::from(*digit - b'0');
    }
    code
}
