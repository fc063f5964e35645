//! Fractions of whole numbers.

ghost use Rattle.std.specs.Prelude.{◌≡◌, ◌≤◌, ◌*◌, ℕ};
ghost use Rattle.graph_model.specs.Rates.{gcd as gcd_of, times as times_of};
ghost use Rattle.rates.specs.Tables.{ratio_of};

/// A block's firings for each firing of the lowest block of its connected part, as a reduced fraction.
#[derive(Clone, Copy, Drop)]
pub struct Fraction {
    /// The lowest block of the part.
    pub part: usize,
    /// The numerator.
    pub over: u64,
    /// The denominator.
    pub under: u64,
}

/// The greatest common divisor, by Euclid's algorithm.
pub fn gcd(a: u64, b: u64) -> u64
    ensures { result ≡ gcd_of a b }
{
    let mut greater = a;
    let mut rest = b;
    while rest != 0 {
        let next = greater % rest;
        greater = rest;
        rest = next;
    }
    greater
}

/// The fraction times `x` over `y`.
pub fn times(f: Fraction, x: u64, y: u64) -> Fraction
    requires over { (1 ≤ f.over) × (f.over ≤ 65536) }
    requires under { (1 ≤ f.under) × (f.under ≤ 65536) }
    requires factors { (1 ≤ x) × (x ≤ 65536) × (y ≤ 65536) }
    ensures { ratio_of result ≡ times_of (ratio_of f) x y }
{
    let over = f.over * x;
    let under = f.under * y;
    let shared = gcd(over, under);
    Fraction {
        part: f.part,
        over: over / shared,
        under: under / shared,
    }
}
