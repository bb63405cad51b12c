//! The table of refusals. Each refusal has a number and a printed name.

/// A row of the table: the number and the name of a refusal.
#[derive(Clone, Copy)]
pub struct Row(pub u16, pub &'static str);

/// A type whose values have a row in the table of refusals.
pub trait Coded {
    ghost use Rattle.std.specs.Prelude.{◌≡◌, ℕ, List};

    /// The row in the definitions.
    ghost row_of: { Self → ℕ × List ℕ };

    /// Returns the number and the name.
    fn row(&self) -> Row
        ensures { (result.0, result.1.now) ≡ row_of self.now };

    /// Returns the number of the refusal, or 0 if it is not a refusal.
    final fn code(&self) -> u16
        ensures { result ≡ (row_of self.now).0 }
    {
        self.row().0
    }

    /// Returns the name of the refusal.
    final fn name(&self) -> &'static str
        ensures { result.now ≡ (row_of self.now).1 }
    {
        self.row().1
    }
}
