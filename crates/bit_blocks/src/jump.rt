//! Registers with feedback that go on by many steps at once.
//!
//! A step is linear over two, so it is a matrix, of which a register has a column for each place. Many steps are a
//! power of it.
ghost use Rattle.std.specs.Prelude.{◌≡◌, ◌<◌, ◌≤◌, ◌^◌, map};
ghost use Rattle.bit_blocks.specs.Jumps.{MakeSteps, product, register_after};

use crate::register::{MOST_BITS, Register, Taps};

/// What a matrix, by its columns, makes of a word.
fn product(columns: &[u64; MOST_BITS], word: u64) -> u64
    ensures { result ≡ product columns.now word }
{
    let mut rest = word;
    let mut sum = 0;
    for column in columns {
        if rest % 2 == 1 {
            sum ^= *column;
        }
        rest /= 2;
    }
    sum
}

/// The matrix of a step.
fn step(taps: Taps) -> [u64; MOST_BITS]
    ensures { 1 ≤ taps.bits → MakeSteps taps.bits taps.mask 1 result }
{
    let mut columns = [0; MOST_BITS];
    for place in 0..MOST_BITS {
        columns[place] = taps.step(1 << place);
    }
    columns
}

/// The matrix of twice as many steps.
fn squared(columns: &[u64; MOST_BITS]) -> [u64; MOST_BITS]
    ensures { result ≡ map (product columns.now) columns.now }
{
    let mut squared = [0; MOST_BITS];
    for place in 0..MOST_BITS {
        squared[place] = product(columns, columns[place]);
    }
    squared
}

/// What a register with feedback holds after so many steps. It takes a matrix times a matrix for each binary digit of
/// their number.
pub(crate) fn register_after(register: &Register, steps: u64) -> u64
    ensures value { let r = register.now in result ≡ register_after r.bits r.mask r.init steps }
    ensures fits { result < 2 ^ register.now.bits }
{
    let taps = Taps::of(register);
    let mut columns = step(taps);
    let mut word = register.init;
    let mut left = steps;
    while 0 < left {
        if left % 2 == 1 {
            word = product(&columns, word);
        }
        columns = squared(&columns);
        left /= 2;
    }
    word
}
