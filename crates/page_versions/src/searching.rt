//! Binary searches among the places of a page.

ghost use Rattle.std.specs.Prelude.{◌≡◌, ◌≤◌, ◌↔◌, IsTrue, true, false, nat_le, nat_lt, length, fold, max};
ghost use Rattle.std.specs.List.{filter};
ghost use Rattle.std.specs.List.Sorted.{IsNonDecreasing, IsNonDecreasingBy, IsPartitionPoint};
ghost use Rattle.page_versions.specs.Layout.{IsCountTo, tick_at};

use guest_log::Touch;

/// Returns how many of the places are not after a version.
pub(crate) fn count_to(places: &[u32], version: u32) -> usize
    requires { IsNonDecreasing places.now }
    ensures { IsCountTo places.now version result }
{
    places.partition_point(
        |place: &u32| -> bool
            ensures { result ≡ nat_le place.now version }
        { *place <= version },
    )
}

/// Returns whether exactly `count` of the places are not after a version.
fn is_count(places: &[u32], version: u32, count: usize) -> bool
    requires { IsNonDecreasing places.now }
    ensures { IsTrue result ↔ IsCountTo places.now version count }
{
    count <= places.len()
        && (count == 0 || places[count - 1] <= version)
        && (count == places.len() || places[count] > version)
}

/// Returns how many of the places are not after a version: the guess if it is right, or else by binary search.
fn count_near(places: &[u32], version: u32, guess: usize) -> usize
    requires { IsNonDecreasing places.now }
    ensures { IsCountTo places.now version result }
{
    if is_count(places, version, guess) {
        return guess;
    }
    count_to(places, version)
}

/// Returns how many of the places are not after a version, counted one by one: there are few, or all of them.
fn count_few(places: &[u32], version: u32) -> usize
    requires { IsNonDecreasing places.now }
    ensures { IsCountTo places.now version result }
{
    if is_count(places, version, places.len()) {
        return places.len();
    }
    let mut count = 0;
    while count < places.len() && places[count] <= version {
        count += 1;
    }
    count
}

/// Returns the tick of the touch at a place, or 0 if there is none.
fn tick_of(touches: &[Touch], place: u32) -> u64
    ensures { result ≡ tick_at touches.now place }
{
    let index = (place as usize).saturating_sub(1);
    if index < touches.len() {
        let touch = touches[index];
        touch.tick
    } else {
        0
    }
}

/// Returns how many of the places are of touches before a tick.
fn count_before(touches: &[Touch], places: &[u32], tick: u64) -> usize
    requires { IsNonDecreasingBy (tick_at touches.now) places.now }
    ensures bound { result ≤ length places.now }
    ensures point { IsPartitionPoint (λ place. nat_lt (tick_at touches.now place) tick ≡ true)
        (λ place. nat_lt (tick_at touches.now place) tick ≡ false) places.now result }
{
    places.partition_point(
        |place: &u32| -> bool
            ensures { result ≡ nat_lt (tick_at touches.entry.now place.now) tick }
        { tick_of(touches, *place) < tick },
    )
}

/// Returns the greatest of ascending places, or 0.
fn greatest(places: &[u32]) -> u32
    requires { IsNonDecreasing places.now }
    ensures { result ≡ fold max 0 places.now }
{
    if places.len() == 0 {
        return 0;
    }
    places[places.len() - 1]
}

/// Returns the greatest of ascending places whose touch is before a tick, or 0.
pub(crate) fn greatest_before(touches: &[Touch], places: &[u32], tick: u64) -> u32
    requires rising { IsNonDecreasing places.now }
    requires order { IsNonDecreasingBy (tick_at touches.now) places.now }
    ensures { result ≡ fold max 0 (filter (λ place. nat_lt (tick_at touches.now place) tick) places.now) }
{
    let count = count_before(touches, places, tick);
    greatest(&places[..count])
}

/// Returns the greatest of ascending places that is not after a version, or 0.
pub(crate) fn greatest_to(places: &[u32], version: u32) -> u32
    requires { IsNonDecreasing places.now }
    ensures { result ≡ fold max 0 (filter (λ place. nat_le place version) places.now) }
{
    let count = count_to(places, version);
    greatest(&places[..count])
}

/// Returns the places that are not after a version.
pub(crate) fn places_to(places: &[u32], version: u32) -> &[u32]
    requires { IsNonDecreasing places.now }
    ensures { result.now ≡ filter (λ place. nat_le place version) places.now }
{
    let count = count_to(places, version);
    &places[..count]
}

/// Returns the places after a version and not after a later one, and how many are not after the later one. It first
/// tests whether the guess is the number not after the first version.
pub(crate) fn places_between(places: &[u32], from: u32, to: u32, guess: usize) -> (&[u32], usize)
    requires rising { IsNonDecreasing places.now }
    requires later { from ≤ to }
    ensures places { result.0.now ≡ filter (λ place. nat_le place to) (filter (λ place. nat_lt from place) places.now) }
    ensures count { result.1 ≡ length (filter (λ place. nat_le place to) places.now) }
    ensures bound { result.1 ≤ length places.now }
{
    let start = count_near(places, from, guess);
    let rest = &places[start..];
    let more = count_few(rest, to);
    (&rest[..more], start + more)
}

/// Returns the places after a version.
pub(crate) fn places_after(places: &[u32], version: u32) -> &[u32]
    requires { IsNonDecreasing places.now }
    ensures { result.now ≡ filter (λ place. nat_lt version place) places.now }
{
    let count = count_to(places, version);
    &places[count..]
}
