//! Decimal numbers.

ghost use Rattle.std.specs.Prelude.{◌<◌, ◌≤◌, ◌*◌, ◌/◌, ◌^◌, IfNone, IfSome, length, ℕ};
ghost use Rattle.std.specs.Option.{SomeIff};
ghost use Rattle.view_commands.specs.Decimals.{ArePlaced, IsDecimal, IsDigits, IsWhole};

/// The most digits behind a point.
const MOST_PLACES: usize = 6;

/// A decimal number: what its digits make without the point, and how many of them stand behind the point.
#[derive(Clone, Copy)]
pub(crate) struct Decimal {
    digits: u64,
    places: usize,
}

/// Returns a whole number.
pub(crate) fn whole_of(text: &str) -> Option<u64>
    ensures some { IfSome result (IsWhole text.now) }
    ensures none { IfNone result ((n : ℕ) → ¬ IsWhole text.now n) }
{
    text.parse::<u64>().ok()
}

/// Returns what decimal digits make. A sign is no digit.
fn digits_of(text: &str) -> Option<u64>
    ensures some { IfSome result (IsDigits text.now) }
    ensures none { IfNone result ((n : ℕ) → ¬ IsDigits text.now n) }
{
    if text.starts_with('+') {
        return None;
    }
    whole_of(text)
}

/// Returns the decimal number of digits before a point and behind it.
fn placed(whole: &str, fraction: &str) -> Option<Decimal>
    ensures some { IfSome result (λ d. (0 < length fraction.now)
        × ArePlaced whole.now fraction.now d.digits d.places) }
    ensures none { IfNone result ((digits places : ℕ) → 0 < length fraction.now
        → ¬ ArePlaced whole.now fraction.now digits places) }
{
    let places = fraction.len();
    if places > MOST_PLACES {
        return None;
    }
    let shifted = digits_of(whole)?.checked_mul(10u64.pow(places as u32))?;
    let digits = shifted.checked_add(digits_of(fraction)?)?;
    Some(Decimal { digits, places })
}

/// Returns the decimal number that a text is.
pub(crate) fn decimal_of(text: &str) -> Option<Decimal>
    ensures some { IfSome result (λ d. IsDecimal text.now d.digits d.places) }
    ensures none { IfNone result ((digits places : ℕ) → ¬ IsDecimal text.now digits places) }
{
    match text.split_once('.') {
        Some((whole, fraction)) => placed(whole, fraction),
        None => {
            let digits = digits_of(text)?;
            Some(Decimal { digits, places: 0 })
        }
    }
}

impl Decimal {
    /// Returns the number times a factor, rounded down, if that is below `2^64`.
    pub(crate) fn times(&self, factor: u64) -> Option<u64>
        requires { self.now.places ≤ 6 }
        ensures { SomeIff result (self.now.digits * factor / 10 ^ self.now.places < 2 ^ 64)
            (self.now.digits * factor / 10 ^ self.now.places) }
    {
        let product = self.digits as u128 * factor as u128;
        let rounded = product / 10u128.pow(self.places as u32);
        if rounded > u64::MAX as u128 {
            return None;
        }
        Some(rounded as u64)
    }
}
