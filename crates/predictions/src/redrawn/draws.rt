//! Draws of pages from a sample.

ghost use Rattle.std.specs.Prelude.{◌≡◌, ◌≤◌, ◌<◌, ◌+◌, ◌++◌, ◌∷◌, [], ℕ, length, nat_lt, take};
ghost use Rattle.std.specs.List.{filter};
ghost use Rattle.predictions.specs.Redrawn.Draws.{drawn_after, next_state, page_at, state_after};

/// The multiplier and the increment of the generator: those of Knuth's MMIX.
const MULTIPLIER: u128 = 6_364_136_223_846_793_005;

const INCREMENT: u128 = 1_442_695_040_888_963_407;

/// How many states the generator has.
const STATES: u128 = 1 << 64;

/// Returns the state after this one.
#[tactic(auto, unfolding(crate::specs::Redrawn::Draws::next_state))]
fn next_state(state: u64) -> u64
    ensures { result ≡ next_state state }
{
    ((MULTIPLIER * state as u128 + INCREMENT) % STATES) as u64
}

/// Returns the page of a sample that a state draws.
fn page_at(sampled: u64, state: u64) -> u32
    requires { sampled ≤ 65_536 }
    ensures { result ≡ page_at sampled state }
{
    ((state >> 32) * sampled >> 32) as u32
}

/// Writes a page into slot `count`, if the trace has it. Returns how many slots are taken then.
fn keep(room: &mut [u32], count: usize, page: u32, pages: u32) -> usize
    requires { count < length room.old }
    ensures kept { take result room.new ≡ take count room.old ++ filter (λ page. nat_lt page pages) (page ∷ []) }
    ensures count { result ≤ count + 1 }
{
    if page >= pages {
        return count;
    }
    room[count] = page;
    count + 1
}

/// Draws as many pages as the sample has, from a state on, and writes those of the trace over the front of `room`.
/// Returns the last state, and how many slots are taken.
pub(crate) fn draw(before: u64, sampled: u64, pages: u32, room: &mut [u32]) -> (u64, usize)
    requires sampled { sampled ≤ 65_536 }
    requires room { sampled ≤ length room.old }
    ensures state { (steps : ℕ) → before ≡ state_after steps → result.0 ≡ state_after (steps + sampled) }
    ensures drawn { (steps : ℕ) → before ≡ state_after steps
        → take result.1 room.new ≡ drawn_after sampled pages steps }
    ensures few { result.1 ≤ sampled }
{
    let mut state = before;
    let mut count = 0;
    for _step in 0..sampled {
        state = next_state(state);
        count = keep(room, count, page_at(sampled, state), pages);
    }
    (state, count)
}
