//! Ways along which amounts are tried.

ghost use Rattle.std.specs.Prelude.{◌≡◌, ◌+◌, ◌-◌, ◌*◌, ◌/◌, ◌^◌, ◌≤◌, min};
ghost use Rattle.predictions.specs.Remedies.{amount_on, count_on};

/// Amounts that are tried one after another.
#[derive(Clone, Copy)]
pub(crate) enum Way {
    /// Up from an amount, by doublings.
    Up(u64),
    /// Down from an amount, by halvings.
    Down(u64),
    /// From an amount to another, by sixteenths of what is between.
    Between(u64, u64),
    /// Down from 100, by steps of 5.
    Slower,
}

/// Returns an amount after some doublings, or the greatest number if it is more than that.
fn doubled(from: u64, n: u64) -> u64
    requires { n ≤ 6 }
    ensures { result ≡ min (from * 2 ^ n) (2 ^ 64 - 1) }
{
    from.saturating_mul(1 << n)
}

/// Returns an amount some sixteenths of the way to another.
fn between(from: u64, to: u64, n: u64) -> u64
    requires { n ≤ 16 }
    ensures { result ≡ (from * (16 - n) + to * n) / 16 }
{
    let sum = from as u128 * (16 - n) as u128 + to as u128 * n as u128;
    (sum / 16) as u64
}

impl Way {
    /// Returns how many amounts come after the first.
    pub(crate) fn count(self) -> u64
        ensures { result ≡ count_on self }
    {
        match self {
            Way::Up(_) => 6,
            Way::Down(_) => 6,
            Way::Between(_, _) => 16,
            Way::Slower => 19,
        }
    }

    /// Returns an amount by its number, from 0 on.
    pub(crate) fn amount(self, n: u64) -> u64
        requires { n ≤ count_on self }
        ensures { result ≡ amount_on self n }
    {
        match self {
            Way::Up(from) => doubled(from, n),
            Way::Down(from) => from >> n,
            Way::Between(from, to) => between(from, to, n),
            Way::Slower => 100 - 5 * n,
        }
    }
}
