//! Times and sizes as texts.

ghost use Rattle.std.specs.Prelude.{◌≡◌, ◌+◌, ◌++◌, ◌<◌, ◌^◌, OnOk};
ghost use Rattle.std.specs.Fmt.{decimal};
ghost use Rattle.predictions.specs.Quantities.{bytes_text, error_text, exact_seconds_text, fraction_text};
ghost use Rattle.predictions.specs.Quantities.{hundredths_text, millis_text, moment_text, rounded_error, seconds_text};
ghost use Rattle.predictions.specs.Quantities.{three_digits, time_text, two_digits};

use itoa::Buffer;
use std::alloc::AllocError;

/// How many bytes a KiB has, a MiB, and a GiB.
const KIB: u128 = 1 << 10;

const MIB: u128 = 1 << 20;

const GIB: u128 = 1 << 30;

/// Appends a number.
pub fn push_wide(text: &mut Vec<u8>, number: u128) -> Result<(), AllocError>
    ensures { OnOk result (text.new.items ≡ text.old.items ++ decimal number) }
{
    let mut digits = Buffer::new();
    text.extend_from_slice(digits.format(number).as_bytes())
}

/// Returns the character of a digit.
fn digit(n: u64) -> u8
    requires { n < 10 }
    ensures { result ≡ 48 + n }
{
    b'0' + n as u8
}

/// Appends two digits.
#[tactic(auto, unfolding(crate::specs::Quantities::two_digits))]
fn push_two(text: &mut Vec<u8>, n: u64) -> Result<(), AllocError>
    requires { n < 100 }
    ensures { OnOk result (text.new.items ≡ text.old.items ++ two_digits n) }
{
    text.extend_from_slice(&[digit(n / 10), digit(n % 10)])
}

/// Appends three digits.
#[tactic(auto, unfolding(crate::specs::Quantities::three_digits))]
fn push_three(text: &mut Vec<u8>, n: u64) -> Result<(), AllocError>
    requires { n < 1_000 }
    ensures { OnOk result (text.new.items ≡ text.old.items ++ three_digits n) }
{
    text.extend_from_slice(&[digit(n / 100), digit(n / 10 % 10), digit(n % 10)])
}

/// Appends thousandths below 1: a point and their digits, without zeros at the end.
#[tactic(auto, unfolding(crate::specs::Quantities::fraction_text))]
fn push_fraction(text: &mut Vec<u8>, n: u64) -> Result<(), AllocError>
    requires { n < 1_000 }
    ensures { OnOk result (text.new.items ≡ text.old.items ++ fraction_text n) }
{
    if n == 0 {
        return Ok(());
    }
    text.extend_from_slice(".".as_bytes())?;
    if n % 100 == 0 {
        return text.extend_from_slice(&[digit(n / 100)]);
    }
    if n % 10 == 0 {
        return push_two(text, n / 10);
    }
    push_three(text, n)
}

/// Appends microseconds as milliseconds.
#[tactic(auto, unfolding(crate::specs::Quantities::millis_text))]
fn push_millis(text: &mut Vec<u8>, micros: u128) -> Result<(), AllocError>
    ensures { OnOk result (text.new.items ≡ text.old.items ++ millis_text micros) }
{
    push_wide(text, micros / 1_000)?;
    push_fraction(text, (micros % 1_000) as u64)?;
    text.extend_from_slice(" ms".as_bytes())
}

/// Appends microseconds as seconds with three digits after the point, rounded down.
#[tactic(auto, unfolding(crate::specs::Quantities::seconds_text))]
fn push_seconds(text: &mut Vec<u8>, micros: u128) -> Result<(), AllocError>
    ensures { OnOk result (text.new.items ≡ text.old.items ++ seconds_text micros) }
{
    push_wide(text, micros / 1_000_000)?;
    text.extend_from_slice(".".as_bytes())?;
    push_three(text, (micros / 1_000 % 1_000) as u64)?;
    text.extend_from_slice(" s".as_bytes())
}

/// Appends microseconds as seconds with six digits after the point.
#[tactic(auto, unfolding(crate::specs::Quantities::exact_seconds_text))]
fn push_exact_seconds(text: &mut Vec<u8>, micros: u128) -> Result<(), AllocError>
    ensures { OnOk result (text.new.items ≡ text.old.items ++ exact_seconds_text micros) }
{
    push_wide(text, micros / 1_000_000)?;
    text.extend_from_slice(".".as_bytes())?;
    push_three(text, (micros / 1_000 % 1_000) as u64)?;
    push_three(text, (micros % 1_000) as u64)?;
    text.extend_from_slice(" s".as_bytes())
}

/// Appends how long something takes, in microseconds: `0 s`, and else in us, ms or s, the greatest that it has one of.
/// From a second on it is rounded down to milliseconds.
#[tactic(auto, unfolding(crate::specs::Quantities::time_text))]
pub fn push_time(text: &mut Vec<u8>, micros: u128) -> Result<(), AllocError>
    ensures { OnOk result (text.new.items ≡ text.old.items ++ time_text micros) }
{
    if micros == 0 {
        return text.extend_from_slice("0 s".as_bytes());
    }
    if micros < 1_000 {
        push_wide(text, micros)?;
        return text.extend_from_slice(" us".as_bytes());
    }
    if micros < 1_000_000 {
        return push_millis(text, micros);
    }
    push_seconds(text, micros)
}

/// Returns a standard error, in microseconds, with few digits: rounded down to tenths of a millisecond from 1 ms on,
/// and to milliseconds from 10 ms on.
#[tactic(auto, unfolding(crate::specs::Quantities::rounded_error))]
fn rounded_error(micros: u128) -> u128
    ensures { result ≡ rounded_error micros }
{
    if micros < 1_000 {
        return micros;
    }
    if micros < 10_000 {
        return micros / 100 * 100;
    }
    micros / 1_000 * 1_000
}

/// Appends the standard error of a time, in microseconds: as a time, with few digits.
#[tactic(auto, unfolding(crate::specs::Quantities::error_text))]
pub fn push_error(text: &mut Vec<u8>, micros: u128) -> Result<(), AllocError>
    ensures { OnOk result (text.new.items ≡ text.old.items ++ error_text micros) }
{
    push_time(text, rounded_error(micros))
}

/// Appends when something is, in microseconds since a begin: seconds with three digits after the point if that is
/// exact, and else with six.
#[tactic(auto, unfolding(crate::specs::Quantities::moment_text))]
pub fn push_moment(text: &mut Vec<u8>, micros: u128) -> Result<(), AllocError>
    ensures { OnOk result (text.new.items ≡ text.old.items ++ moment_text micros) }
{
    if micros % 1_000 == 0 {
        return push_seconds(text, micros);
    }
    push_exact_seconds(text, micros)
}

/// Appends hundredths: a number and two digits after the point.
#[tactic(auto, unfolding(crate::specs::Quantities::hundredths_text))]
fn push_hundredths(text: &mut Vec<u8>, n: u128) -> Result<(), AllocError>
    ensures { OnOk result (text.new.items ≡ text.old.items ++ hundredths_text n) }
{
    push_wide(text, n / 100)?;
    text.extend_from_slice(".".as_bytes())?;
    push_two(text, (n % 100) as u64)
}

/// Appends a size, in the greatest unit that it has one of: bytes, and from a KiB on with two digits after the point,
/// rounded down.
#[tactic(auto, unfolding(crate::specs::Quantities::bytes_text))]
pub fn push_bytes(text: &mut Vec<u8>, bytes: u128) -> Result<(), AllocError>
    requires { bytes < 2 ^ 120 }
    ensures { OnOk result (text.new.items ≡ text.old.items ++ bytes_text bytes) }
{
    if bytes == 1 {
        return text.extend_from_slice("1 byte".as_bytes());
    }
    if bytes < KIB {
        push_wide(text, bytes)?;
        return text.extend_from_slice(" bytes".as_bytes());
    }
    if bytes < MIB {
        push_hundredths(text, bytes * 100 / KIB)?;
        return text.extend_from_slice(" KiB".as_bytes());
    }
    if bytes < GIB {
        push_hundredths(text, bytes * 100 / MIB)?;
        return text.extend_from_slice(" MiB".as_bytes());
    }
    push_hundredths(text, bytes * 100 / GIB)?;
    text.extend_from_slice(" GiB".as_bytes())
}
