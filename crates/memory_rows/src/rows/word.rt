//! Worked tables of dirty words, on one thread and on two.

ghost use Rattle.std.specs.Prelude.{◌≡◌, [], ◌∷◌, IsTrue, IfSome};
ghost use Rattle.dirty_words.specs.Facts.{after_store};
ghost use Rattle.dirty_words.specs.Seats.{guest_table, copy_table};
ghost use Rattle.dirty_words.specs.Pairs.{IsPair, IsPairOf, with_read, UnmarkedWasRead, UnmarkedIsRead};

use dirty_core::Opening;
use dirty_words::{Closed, CopySeat, GuestSeat, Opened, RoundTable, TableError};
use std::alloc::Global;
use std::process::Abort;
use std::sync::atomic::{AtomicBool, Ordering};
use std::thread;
use std::thread::Threads;

/// A table of one guest and one copier.
#[derive(Drop)]
struct Pair {
    table: RoundTable,
    guest: GuestSeat,
    copier: CopySeat,
}

fn open_pair(alloc: Global, opening: Opening) -> Option<Pair>
    ensures { IfSome result (λ pair. IsPair opening pair.table pair.guest pair.copier) }
{
    if opening.guests() != 1 || opening.copiers() != 1 {
        return None;
    }
    let Ok(opened) = RoundTable::open(alloc, opening) else {
        return None;
    };
    let Opened {
        table,
        mut guests,
        mut copiers,
    } = opened;
    let guest = guests.pop()?;
    let copier = copiers.pop()?;
    Some(Pair {
        table,
        guest,
        copier,
    })
}

/// Returns a table of four pages at place 0, with these marked.
fn open_four(alloc: Global, dirty: u64) -> Option<Pair>
    ensures { IfSome result (λ pair. IsPairOf pair.table pair.guest pair.copier) }
{
    let places = vec![in alloc; 0u32, 0u32, 0u32, 0u32].ok()?;
    let words = vec![in alloc; dirty].ok()?;
    let opening = Opening::new(places, words, 1, 1)?;
    open_pair(alloc, opening)
}

fn one_guest(alloc: Global, guest: GuestSeat) -> Option<Vec<GuestSeat>>
    ensures { IfSome result (λ guests. guests.items ≡ guest ∷ []) }
{
    vec![in alloc; guest].ok()
}

fn one_copier(alloc: Global, copier: CopySeat) -> Option<Vec<CopySeat>>
    ensures { IfSome result (λ copiers. copiers.items ≡ copier ∷ []) }
{
    vec![in alloc; copier].ok()
}

/// Closes the table if nothing is pending and nothing is held.
fn close_pair(
    alloc: Global,
    table: RoundTable,
    guest: GuestSeat,
    copier: CopySeat,
) -> Option<Closed>
    requires { IsPairOf table guest copier }
    ensures { IfSome result (λ closed. UnmarkedWasRead table.start guest.facts copier.facts closed) }
{
    if guest.pending().is_some() || copier.holds() {
        return None;
    }
    if guest.number() != 0 || copier.number() != 0 {
        return None;
    }
    let guests = one_guest(alloc, guest)?;
    let copiers = one_copier(alloc, copier)?;
    Some(table.close(guests, copiers))
}

/// Stores a page, if the guest may.
fn store_page(table: &RoundTable, guest: &mut GuestSeat, page: u32, place: u32) -> bool
    requires { guest_table guest.old ≡ table.now }
    ensures table { guest_table guest.new ≡ guest_table guest.old }
    ensures facts { IsTrue result → guest.new.facts ≡ after_store page place guest.old.facts }
{
    if !guest.owns(page) || guest.pending().is_some() || guest.last(page) >= place {
        return false;
    }
    guest.advance(table, page, place);
    true
}

/// Marks the page that was stored, if there is one.
fn mark_page(table: &RoundTable, guest: &mut GuestSeat) -> bool
    requires { guest_table guest.old ≡ table.now }
    ensures { guest_table guest.new ≡ guest_table guest.old }
{
    if guest.pending().is_none() {
        return false;
    }
    guest.mark(table);
    true
}

/// Reads a page, if it is held. Returns its place.
fn read_page(table: &RoundTable, copier: &mut CopySeat, page: u32) -> Option<u32>
    requires { copy_table copier.old ≡ table.now }
    ensures table { copy_table copier.new ≡ copy_table copier.old }
    ensures reads { copier.new.facts.reads ≡ with_read page result copier.old.facts.reads }
{
    let word = (page / 64) as usize;
    if !copier.owns(word) || (copier.held(word) >> (page % 64)) & 1 != 1 {
        return None;
    }
    Some(copier.read(table, page))
}

/// Restores pages, if all are held.
fn restore_pages(table: &RoundTable, copier: &mut CopySeat, word: usize, bits: u64) -> bool
    requires { copy_table copier.old ≡ table.now }
    ensures table { copy_table copier.new ≡ copy_table copier.old }
    ensures reads { copier.new.facts.reads ≡ copier.old.facts.reads }
{
    if !copier.owns(word) || copier.held(word) & bits != bits {
        return false;
    }
    copier.restore(table, word, bits);
    true
}

/// Harvests a word, if the copier may. Returns its pages.
fn harvest_word(table: &RoundTable, copier: &mut CopySeat, word: usize) -> Option<u64>
    requires { copy_table copier.old ≡ table.now }
    ensures table { copy_table copier.new ≡ copy_table copier.old }
    ensures reads { copier.new.facts.reads ≡ copier.old.facts.reads }
{
    if !copier.owns(word) {
        return None;
    }
    Some(copier.harvest(table, word))
}

/// Peeks at a word, if the copier may. Returns its pages.
fn peek_word(table: &RoundTable, copier: &mut CopySeat, word: usize) -> Option<u64>
    requires { copy_table copier.old ≡ table.now }
    ensures { copy_table copier.new ≡ copy_table copier.old }
{
    if !copier.owns(word) {
        return None;
    }
    Some(copier.peek(table, word))
}

#[test]
fn one_table_on_one_thread(rt: HostRuntime) {
    let Pair {
        table,
        mut guest,
        mut copier,
    } = open_four(rt.alloc(), 8).expect(&rt, "a table");
    let first = [
        harvest_word(&table, &mut copier, 0),
        harvest_word(&table, &mut copier, 0),
    ];
    let stored = [
        store_page(&table, &mut guest, 1, 1),
        mark_page(&table, &mut guest),
    ];
    let second = [
        peek_word(&table, &mut copier, 0),
        harvest_word(&table, &mut copier, 0),
    ];
    let place = read_page(&table, &mut copier, 1);
    let restored = restore_pages(&table, &mut copier, 0, 8);
    let left = peek_word(&table, &mut copier, 0);
    let closed = close_pair(rt.alloc(), table, guest, copier).expect(&rt, "closed");
    assert!(rt;
        (first, stored, second, (place, restored, left))
            == (
                [Some(8), Some(0)],
                [true; 2],
                [Some(2); 2],
                (Some(1), true, Some(8))
            )
    );
    let fits = [
        closed.fits(4, 1),
        closed.fits(4, 0),
        closed.fits(5, 1),
        closed.fits(3, 1),
    ];
    assert!(rt;
        (closed.versions.as_slice(), closed.dirty.as_slice(), fits)
            == (&[0, 1, 0, 0][..], &[8][..], [true, false, false, false])
    );
}

/// What a round of two threads went through: each sets its flag when its first step is done.
#[derive(Drop)]
struct Flags {
    stored: AtomicBool,
    harvested: AtomicBool,
    tied: bool,
}

const fn lowered(tied: bool) -> Flags {
    Flags {
        stored: AtomicBool::new(false),
        harvested: AtomicBool::new(false),
        tied,
    }
}

/// Waits if the threads are tied. Returns false if the other thread came too late.
fn reached(flags: &Flags, flag: &AtomicBool) -> bool {
    if !flags.tied {
        return true;
    }
    for _ in 0..50_000_000u32 {
        if flag.load(Ordering::SeqCst) {
            return true;
        }
        thread::yield_now();
    }
    false
}

/// The guest after its thread, and whether all went as it should.
#[derive(Drop)]
struct Stored {
    guest: GuestSeat,
    done: bool,
}

fn store_and_mark(table: &RoundTable, mut guest: GuestSeat, flags: &Flags) -> Stored
    requires { guest_table guest ≡ table.now }
    ensures { guest_table result.guest ≡ guest_table guest }
{
    let stored = store_page(table, &mut guest, 0, 1);
    flags.stored.store(true, Ordering::SeqCst);
    let in_time = reached(flags, &flags.harvested);
    let marked = mark_page(table, &mut guest);
    Stored {
        guest,
        done: stored && in_time && marked,
    }
}

/// The copier after its thread, what it harvested, what it read of page 0, and whether all went as it should.
#[derive(Drop)]
struct Copied {
    copier: CopySeat,
    harvested: Option<u64>,
    place: Option<u32>,
    done: bool,
}

fn harvest_and_read(table: &RoundTable, mut copier: CopySeat, flags: &Flags) -> Copied
    requires { copy_table copier ≡ table.now }
    ensures { copy_table result.copier ≡ copy_table copier }
{
    let harvested = harvest_word(table, &mut copier, 0);
    flags.harvested.store(true, Ordering::SeqCst);
    let in_time = reached(flags, &flags.stored);
    let place = read_page(table, &mut copier, 0);
    let one = read_page(table, &mut copier, 1);
    let two = read_page(table, &mut copier, 2);
    let three = read_page(table, &mut copier, 3);
    Copied {
        copier,
        harvested,
        place,
        done: in_time && one == Some(0) && two == Some(0) && three == Some(0),
    }
}

/// The result of a round of two threads: whether all went as it should, what the copier harvested, what it read of
/// page 0, and what is left.
#[derive(Drop)]
struct Round {
    done: bool,
    harvested: Option<u64>,
    place: Option<u32>,
    closed: Closed,
}

/// Four marked pages: one thread stores page 0 at place 1 and marks it, the other harvests and reads.
fn on_two_threads(rt: &(impl Abort + Threads + Abort), alloc: Global, tied: bool) -> Round {
    let Pair {
        table,
        guest,
        copier,
    } = open_four(alloc, 15).expect(rt, "a table");
    let shared = &table;
    let flags = lowered(tied);
    let watched = &flags;
    let (stored, copied) = thread::join(
        rt,
        move || store_and_mark(shared, guest, watched),
        move || harvest_and_read(shared, copier, watched),
    );
    let Copied {
        copier,
        harvested,
        place,
        done,
    } = copied;
    let done = stored.done && done;
    let closed = close_pair(alloc, table, stored.guest, copier).expect(rt, "closed");
    Round {
        done,
        harvested,
        place,
        closed,
    }
}

#[test]
fn two_free_threads(rt: HostRuntime) {
    let round = on_two_threads(&rt, rt.alloc(), false);
    assert!(rt;
        (
            round.done,
            round.harvested,
            round.closed.versions.as_slice()
        ) == (true, Some(15), &[1, 0, 0, 0][..])
    );
    let marked = round.closed.dirty.as_slice() == [1].as_slice();
    let clean = round.closed.dirty.as_slice() == [0].as_slice();
    assert!(rt; marked || (clean && round.place == Some(1)));
}

#[test]
fn two_tied_threads(rt: HostRuntime) {
    let round = on_two_threads(&rt, rt.alloc(), true);
    assert!(rt; (round.done, round.harvested, round.place) == (true, Some(15), Some(1)));
    assert!(rt;
        (
            round.closed.versions.as_slice(),
            round.closed.dirty.as_slice()
        ) == (&[1, 0, 0, 0][..], &[1][..])
    );
}

/// Runs a round: the guest stores and marks a page while the copier harvests its word, reads that page and restores
/// the others. Returns what the copier read, and what is left.
fn round_of_one_page(
    alloc: Global,
    opening: Opening,
    page: u32,
    place: u32,
) -> Option<(Option<u32>, Closed)>
    ensures { IfSome result (λ left. UnmarkedIsRead opening page left.0 left.1) }
{
    let word = (page / 64) as usize;
    let Pair {
        table,
        mut guest,
        mut copier,
    } = open_pair(alloc, opening)?;
    let stored = store_page(&table, &mut guest, page, place);
    let harvested = harvest_word(&table, &mut copier, word)?;
    let read = read_page(&table, &mut copier, page);
    let marked = mark_page(&table, &mut guest);
    let left = harvested & !(1u64 << (page % 64));
    if !stored || !marked || !restore_pages(&table, &mut copier, word, left) {
        return None;
    }
    let closed = close_pair(alloc, table, guest, copier)?;
    Some((read, closed))
}

/// Returns an opening of two marked pages, the first at place 7.
fn two_pages(alloc: Global) -> Option<Opening> {
    let places = vec![in alloc; 7u32, 0u32].ok()?;
    let dirty = vec![in alloc; 3u64].ok()?;
    Opening::new(places, dirty, 1, 1)
}

#[test]
fn one_page_of_a_round(rt: HostRuntime) {
    let opening = two_pages(rt.alloc()).expect(&rt, "an opening");
    let (read, closed) = round_of_one_page(rt.alloc(), opening, 0, 9).expect(&rt, "a round");
    assert!(rt;
        (read, closed.versions.as_slice(), closed.dirty.as_slice())
            == (Some(9), &[9, 0][..], &[3][..])
    );
}

#[test]
fn name_of_the_refusal(rt: HostRuntime) {
    let text = TableError::Memory
        .to_string(rt.alloc())
        .expect(&rt, "memory");
    assert!(rt; text.as_str() == "memory");
}

/// Opens a table and closes it again with all its seats.
fn opened_and_closed(alloc: Global, opening: Opening) -> Option<Closed> {
    let Ok(opened) = RoundTable::open(alloc, opening) else {
        return None;
    };
    let Opened {
        table,
        guests,
        copiers,
    } = opened;
    Some(table.close(guests, copiers))
}

/// Returns an opening of 130 pages at place 5, with the first and the last marked, for three guests and two copiers.
fn many_pages(alloc: Global) -> Option<Opening> {
    let places = vec![in alloc; 5u32; 130].ok()?;
    let dirty = vec![in alloc; 1u64, 0u64, 2u64].ok()?;
    Opening::new(places, dirty, 3, 2)
}

/// Returns whether the guest has number 1 and nothing is pending, and which of some pages it owns.
fn told_of_guest(guest: &GuestSeat) -> (bool, [bool; 4]) {
    let owned = [
        guest.owns(4),
        guest.owns(127),
        guest.owns(5),
        guest.owns(130),
    ];
    (guest.number() == 1 && guest.pending().is_none(), owned)
}

/// Returns whether the copier has number 1 and holds nothing, and which of the words it owns.
fn told_of_copier(copier: &CopySeat) -> (bool, [bool; 4]) {
    let owned = [
        copier.owns(0),
        copier.owns(1),
        copier.owns(2),
        copier.owns(3),
    ];
    (copier.number() == 1 && !copier.holds(), owned)
}

#[test]
fn many_seats(rt: HostRuntime) {
    let opening = many_pages(rt.alloc()).expect(&rt, "an opening");
    let opened = RoundTable::open(rt.alloc(), opening).expect(&rt, "a table");
    assert!(rt;
        (
            (opened.guests.len(), opened.copiers.len()),
            opened.guests.get(1).map(told_of_guest),
            opened.copiers.get(1).map(told_of_copier)
        ) == (
            (3, 2),
            Some((true, [true, true, false, false])),
            Some((true, [false, true, false, false]))
        )
    );
    drop(opened);
    let opening = many_pages(rt.alloc()).expect(&rt, "an opening");
    let closed = opened_and_closed(rt.alloc(), opening).expect(&rt, "closed");
    let fits = [
        closed.fits(130, 5),
        closed.fits(130, 4),
        closed.fits(129, 5),
    ];
    assert!(rt;
        (
            fits,
            closed.dirty.as_slice(),
            closed.versions.iter().all(|version| *version == 5)
        ) == ([true, false, false], &[1, 0, 2][..], true)
    );
}
