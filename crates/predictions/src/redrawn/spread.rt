//! How far some numbers are apart.

ghost use Rattle.std.specs.Prelude.{◌≡◌, ◌≤◌, ◌+◌, ◌*◌, ◌-◌, ◌^◌};

/// The sum of some numbers, and the sum of their squares.
#[derive(Clone, Copy)]
pub(crate) struct Spread {
    pub(crate) sum: u128,
    pub(crate) squares: u128,
}

impl Spread {
    /// The sums of no number.
    pub(crate) const NONE: Spread = Spread { sum: 0, squares: 0 };

    /// Returns the sums with one more number.
    pub(crate) fn with(self, number: u64) -> Spread
        requires sum { self.sum ≤ 2 ^ 64 }
        requires squares { self.squares ≤ 2 ^ 126 }
        requires number { number ≤ 2 ^ 52 }
        ensures sum { result.sum ≡ self.sum + number }
        ensures squares { result.squares ≡ self.squares + number * number }
    {
        Spread {
            sum: self.sum + number as u128,
            squares: self.squares + number as u128 * number as u128,
        }
    }

    /// Returns the sum of the squared deviations of 20 numbers from their mean, times 20.
    pub(crate) fn apart(self) -> u128
        requires sum { self.sum ≤ 20 * 2 ^ 52 }
        requires squares { self.squares ≤ 20 * 2 ^ 104 }
        ensures { result ≡ 20 * self.squares - self.sum * self.sum }
    {
        (20 * self.squares).saturating_sub(self.sum * self.sum)
    }
}
