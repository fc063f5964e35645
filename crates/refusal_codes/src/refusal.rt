//! How refusals are reported.
ghost use Rattle.std.specs.Prelude.{◌≡◌, ℕ, List};

/// A fault that is reported by a number, which scripts and programs in C test, and by a name beside it.
pub trait Refusal {
    ghost row: { Self → ℕ × List ℕ };

    /// The number by which the refusal is reported, and the name beside it. A match of a type's refusals is the table
    /// of them.
    fn row(&self) -> (u32, &'static str)
        ensures { (result.0, result.1.now) ≡ row self.now };

    /// The number by which the refusal is reported.
    final fn number(&self) -> u32
        ensures { result ≡ (row self.now).0 }
    {
        self.row().0
    }

    /// The name beside the number.
    final fn name(&self) -> &'static str
        ensures { result.now ≡ (row self.now).1 }
    {
        self.row().1
    }
}
