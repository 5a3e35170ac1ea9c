//! Whether the bytes of a page are all 0.
#![tactic(auto)]

ghost use Rattle.std.specs.Prelude.{◌≡◌, ◌↔◌, All, IsTrue, length};

use std::simd::prelude::*;

/// How many bytes are tested together.
const LANES: usize = 64;

/// Returns whether each of 64 bytes is 0.
fn lanes_are_zero(block: &[u8]) -> bool
    requires { length block.now ≡ 64 }
    ensures { IsTrue result ↔ All (λ byte. byte ≡ 0) block.now }
{
    let lanes = u8x64::from_slice(block);
    lanes.simd_ne(u8x64::splat(0)).to_bitmask() == 0
}

/// Returns whether each byte of two blocks of 64 is 0.
fn pair_is_zero(first: &[u8], second: &[u8]) -> bool
    requires first { length first.now ≡ 64 }
    requires second { length second.now ≡ 64 }
    ensures { IsTrue result ↔ (All (λ byte. byte ≡ 0) first.now × All (λ byte. byte ≡ 0) second.now) }
{
    lanes_are_zero(first) && lanes_are_zero(second)
}

/// Returns whether each byte is 0, tested one after the other.
fn rest_is_zero(rest: &[u8]) -> bool
    ensures { IsTrue result ↔ All (λ byte. byte ≡ 0) rest.now }
{
    let mut seen = 0u8;
    for byte in rest {
        seen |= *byte;
    }
    seen == 0
}

/// Returns whether each byte is 0, which is true of no bytes at all. It allocates nothing.
///
/// It tests 64 bytes together, from the first half and the second in turn, and ends at the first of these blocks that
/// has another byte. Reading memory at two addresses in turn takes less time than at one.
pub fn is_zero(bytes: &[u8]) -> bool
    ensures { IsTrue result ↔ All (λ byte. byte ≡ 0) bytes.now }
{
    let (mut front, mut back) = bytes.split_at(bytes.len() / 2);
    while front.len() >= LANES && back.len() >= LANES {
        let (first, front_after) = front.split_at(LANES);
        let (second, back_after) = back.split_at(LANES);
        if !pair_is_zero(first, second) {
            return false;
        }
        front = front_after;
        back = back_after;
    }
    rest_is_zero(front) && rest_is_zero(back)
}
