//! Numbers with digits after the point, as texts.

ghost use Rattle.std.specs.Prelude.{◌≡◌, ◌+◌, ◌<◌, ◌++◌, ◌∷◌, [], IfOk, OnOk, string_bytes};
ghost use Rattle.trace_views.specs.Json.{millionths_text, six_digits};

use itoa::Buffer;
use std::alloc::{AllocError, Global};

/// Appends a digit.
fn push_digit(text: &mut String, digit: u32) -> Result<(), AllocError>
    requires { digit < 10 }
    ensures { OnOk result (string_bytes text.new ≡ string_bytes text.old ++ (48 + digit) ∷ []) }
{
    text.push((b'0' + digit as u8) as char)
}

/// Appends six digits.
#[tactic(auto, unfolding(crate::specs::Json::six_digits))]
fn push_six(text: &mut String, n: u32) -> Result<(), AllocError>
    requires { n < 1_000_000 }
    ensures { OnOk result (string_bytes text.new ≡ string_bytes text.old ++ six_digits n) }
{
    push_digit(text, n / 100_000)?;
    push_digit(text, n / 10_000 % 10)?;
    push_digit(text, n / 1000 % 10)?;
    push_digit(text, n / 100 % 10)?;
    push_digit(text, n / 10 % 10)?;
    push_digit(text, n % 10)
}

/// Returns millionths as a number, with six digits after the point.
#[tactic(auto, unfolding(crate::specs::Json::millionths_text))]
pub(crate) fn millionths(alloc: Global, n: u128) -> Result<String, AllocError>
    ensures { IfOk result (λ text. string_bytes text ≡ millionths_text n) }
{
    let mut digits = Buffer::new();
    let mut text = String::from_str(alloc, digits.format(n / 1_000_000))?;
    text.push('.')?;
    push_six(&mut text, (n % 1_000_000) as u32)?;
    Ok(text)
}
