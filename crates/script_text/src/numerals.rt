//! Numbers in text.
ghost use Rattle.std.specs.Prelude.{◌≡◌, ◌≤◌, ◌^◌};
ghost use Rattle.script_text.specs.Numbers.{natural_of, within, integer_of};
ghost use Rattle.script_text.specs.Numbers as numbers;

const MINUS_SIGN: u8 = b'-';

/// The number that the digits spell, if it is at most this.
pub fn parse_natural(digits: &[u8], most: u64) -> Option<u64>
    ensures { result ≡ within 0 most (natural_of digits.now) }
{
    if digits.len() == 0 {
        return None;
    }
    let mut number = 0;
    for digit in digits {
        if !digit.is_ascii_digit() {
            return None;
        }
        if number > most / 10 {
            return None;
        }
        let value = u64::from(*digit - b'0');
        if value > most - 10 * number {
            return None;
        }
        number = 10 * number + value;
    }
    Some(number)
}

/// The signed number that the bytes spell, if it has at most 64 bits.
pub fn parse_integer(bytes: &[u8]) -> Option<i64>
    ensures { result ≡ integer_of bytes.now }
{
    if bytes.len() == 0 {
        return None;
    }
    if bytes[0] == MINUS_SIGN {
        let number = parse_natural(&bytes[1..], 1 << 63)?;
        Some(negated(number))
    } else {
        let number = parse_natural(bytes, i64::MAX as u64)?;
        Some(number as i64)
    }
}

// The number with a minus sign.
fn negated(number: u64) -> i64
    requires { number ≤ 2 ^ 63 }
    ensures { result ≡ numbers.negated number }
{
    if number == 0 {
        0
    } else {
        -1 - (number - 1) as i64
    }
}
