//! Square roots, quotients and shares, rounded up.

ghost use Rattle.std.specs.Int.{div_ceil};
ghost use Rattle.std.specs.Prelude.{◌≡◌, ℕ, ◌*◌, ◌≤◌, ◌^◌};

/// Returns the least number whose square is no less than this.
fn root_above(n: u128) -> u128
    ensures enough { n ≤ result * result }
    ensures least { (k : ℕ) → n ≤ k * k → result ≤ k }
    ensures small { result ≤ 2 ^ 64 }
{
    if n == 0 {
        return 0;
    }
    (n - 1).isqrt() + 1
}

/// Returns the least number that is no less than this quotient.
fn quotient_above(n: u128, divisor: u128) -> u128
    requires { 1 ≤ divisor }
    ensures enough { n ≤ result * divisor }
    ensures least { (k : ℕ) → n ≤ k * divisor → result ≤ k }
{
    n.div_ceil(divisor)
}

/// Returns the least number whose square is no less than this quotient.
pub(crate) fn root_above_quotient(n: u128, divisor: u128) -> u128
    requires { 1 ≤ divisor }
    ensures enough { n ≤ result * result * divisor }
    ensures least { (k : ℕ) → n ≤ k * k * divisor → result ≤ k }
    ensures small { result ≤ 2 ^ 64 }
{
    root_above(quotient_above(n, divisor))
}

/// Returns the least number that is no less than a share of `n`: `part` of `whole`. The product of the two need not
/// fit.
pub(crate) fn share_above(n: u128, part: u128, whole: u128) -> u128
    requires some { 1 ≤ whole }
    requires part { part ≤ whole }
    requires whole { whole ≤ 2 ^ 32 }
    ensures enough { n * part ≤ result * whole }
    ensures least { (k : ℕ) → n * part ≤ k * whole → result ≤ k }
{
    n / whole * part + quotient_above(n % whole * part, whole)
}
