//! Numbers and times as people read them.

use itoa::Buffer;
use std::alloc::AllocError;

const THOUSAND: u64 = 1_000;

const MILLION: u64 = 1_000_000;

const BILLION: u64 = 1_000_000_000;

/// Writes a number.
pub(crate) fn push_number(out: &mut Vec<u8>, number: u64) -> Result<(), AllocError> {
    let mut buffer = Buffer::new();
    out.extend_from_slice(buffer.format(number).as_bytes())
}

/// Writes a number with a comma before each three digits.
pub(crate) fn push_grouped(out: &mut Vec<u8>, number: u64) -> Result<(), AllocError> {
    let mut buffer = Buffer::new();
    let digits = buffer.format(number).as_bytes();
    let mut left = digits.len();
    for digit in digits {
        if left < digits.len() && left % 3 == 0 {
            out.push(b',')?;
        }
        out.push(*digit)?;
        left = left.saturating_sub(1);
    }
    Ok(())
}

/// Writes a time in the greatest unit in which it is at least 1, cut to a tenth.
pub(crate) fn push_time(out: &mut Vec<u8>, nanos: u64) -> Result<(), AllocError> {
    if nanos < THOUSAND {
        push_number(out, nanos)?;
        out.extend_from_slice(b" ns")
    } else if nanos < MILLION {
        push_tenths(out, nanos / (THOUSAND / 10))?;
        out.extend_from_slice(b" us")
    } else if nanos < BILLION {
        push_tenths(out, nanos / (MILLION / 10))?;
        out.extend_from_slice(b" ms")
    } else {
        push_tenths(out, nanos / (BILLION / 10))?;
        out.extend_from_slice(b" s")
    }
}

/// Writes the share of a whole in percent, cut to a tenth.
pub(crate) fn push_share(out: &mut Vec<u8>, part: u64, whole: u64) -> Result<(), AllocError> {
    push_tenths(out, per_mille(part, whole))?;
    out.extend_from_slice(b" %")
}

/// The share of a whole in thousandths, cut; 0 of an empty whole.
pub(crate) fn per_mille(part: u64, whole: u64) -> u64 {
    if whole == 0 {
        return 0;
    }
    match part.checked_mul(THOUSAND) {
        Some(thousandfold) => thousandfold / whole,
        // (in so long a time the loss is far below a thousandth)
        None => part / (whole / THOUSAND).max(1),
    }
}

/// The mean, cut; none if the count is 0.
pub(crate) fn mean(sum: u64, count: u64) -> Option<u64> {
    if count == 0 { None } else { Some(sum / count) }
}

// Writes so many tenths.
fn push_tenths(out: &mut Vec<u8>, tenths: u64) -> Result<(), AllocError> {
    push_grouped(out, tenths / 10)?;
    out.push(b'.')?;
    push_number(out, tenths % 10)
}
