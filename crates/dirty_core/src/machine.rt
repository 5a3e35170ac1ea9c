//! The core, and its six events. No program runs it: it serves users of the library, and tests.

// `Goes` holds of one answer and one core alone: `one_step`. `Refuses` holds of one value alone: `one_step`.

ghost use Rattle.std.specs.Prelude.{◌≡◌, ◌↔◌, ◌<◌, length, replicate, None, IfOk, IfErr, OnErr, IsOk, IsTrue};
ghost use Rattle.dirty_core.specs.Start.{sizes_of, GuestOwns, CopierOwns, CopierOwnsPage};
ghost use Rattle.dirty_core.specs.Runs.{opened};
ghost use Rattle.dirty_core.specs.Kept.{Kept, IsKept, kept_with, kept_sizes, place_of, is_marked, pending_of, held_by};
ghost use Rattle.dirty_core.specs.Kept.{Keeps, Goes, FindsNeeds, Refuses, Outcome};

use crate::answer::Answer;
use crate::event::Event;
use crate::opening::Opening;
use crate::refusal::CoreRefusal;
use page_bitmap::{
    add_bits, add_page, bits_of, clear_word, has_bits, has_page, remove_bits, remove_page,
};
use std::alloc::{AllocError, Global};
use std::marker::Model;

/// A core, without its history: the places of the pages, which pages are marked, which page each guest has stored and
/// not yet marked, and which pages each copier holds.
#[derive(Debug, Drop)]
pub struct Core {
    places: Vec<u32>,
    dirty: Vec<u64>,
    held: Vec<u64>,
    pending: Vec<Option<u32>>,
    copiers: usize,
}

impl Model for Core {
    ghost Value = { Kept };

    ghost view = { λ c. kept_with c.places.items c.dirty.items c.held.items c.pending.items c.copiers };

    ghost invariant = { λ c. IsKept (kept_with c.places.items c.dirty.items c.held.items c.pending.items c.copiers) };
}

/// Returns `count` words of no pages.
fn empty_words(alloc: Global, count: usize) -> Result<Vec<u64>, AllocError>
    ensures { IfOk result (λ words. words.items ≡ replicate count 0) }
{
    vec![in alloc; 0u64; count]
}

/// Returns a list in which none of `guests` guests has a page pending.
fn none_pending(alloc: Global, guests: usize) -> Result<Vec<Option<u32>>, AllocError>
    ensures { IfOk result (λ pending. pending.items ≡ replicate guests None) }
{
    vec![in alloc; None; guests]
}

impl Core {
    /// Returns the core that opens with these parts. The only error is `C6`.
    pub fn open(alloc: Global, opening: &Opening) -> Result<Core, CoreRefusal>
        ensures opened { IfOk result (λ core. Keeps core (opened opening.now)) }
        ensures sizes { IfOk result (λ core. kept_sizes core ≡ sizes_of opening.now) }
        ensures refused { IfErr result (λ refusal. refusal ≡ CoreRefusal.Memory) }
    {
        let places = Vec::from_slice(alloc, opening.places())?;
        let dirty = Vec::from_slice(alloc, opening.dirty())?;
        let held = empty_words(alloc, opening.dirty().len())?;
        let pending = none_pending(alloc, opening.guests())?;
        Ok(Core {
            places,
            dirty,
            held,
            pending,
            copiers: opening.copiers(),
        })
    }

    /// Returns the place of a page.
    pub fn place(&self, page: u32) -> u32
        requires { page < length self.now.places }
        ensures { result ≡ place_of self.now page }
    {
        let index = page as usize;
        self.places[index]
    }

    /// Returns whether a page is marked. No page past the last one is.
    pub fn marked(&self, page: u32) -> bool
        ensures { result ≡ is_marked self.now page }
    {
        has_page(&self.dirty, page)
    }

    /// Returns the page that a guest stored and has not marked yet. A guest that does not exist has none.
    pub fn pending(&self, guest: usize) -> Option<u32>
        ensures { result ≡ pending_of self.now guest }
    {
        if guest < self.pending.len() {
            self.pending[guest]
        } else {
            None
        }
    }

    /// Returns whether a copier holds a page. A copier that is not the page's own does not.
    pub fn held(&self, copier: usize, page: u32) -> bool
        ensures { result ≡ held_by self.now copier page }
    {
        (page / 64) as usize % self.copiers == copier && has_page(&self.held, page)
    }

    fn guest_owns(&self, guest: usize, page: u32) -> bool
        ensures { IsTrue result ↔ GuestOwns (kept_sizes self.now) guest page }
    {
        (page as usize) < self.places.len()
            && guest < self.pending.len()
            && page as usize % self.pending.len() == guest
    }

    fn copier_owns(&self, copier: usize, word: usize) -> bool
        ensures { IsTrue result ↔ CopierOwns (kept_sizes self.now) copier word }
    {
        word < self.dirty.len() && copier < self.copiers && word % self.copiers == copier
    }

    fn copier_owns_page(&self, copier: usize, page: u32) -> bool
        ensures { IsTrue result ↔ CopierOwnsPage (kept_sizes self.now) copier page }
    {
        (page as usize) < self.places.len() && self.copier_owns(copier, (page / 64) as usize)
    }

    fn store(&mut self, guest: usize, page: u32, place: u32) -> Result<Answer, CoreRefusal>
        ensures { Outcome self.old (Event.Store guest page place) result self.new }
    {
        if !self.guest_owns(guest, page) {
            return Err(CoreRefusal::NotOwner);
        }
        if self.pending[guest].is_some() {
            return Err(CoreRefusal::Pending);
        }
        if place <= self.places[page as usize] {
            return Err(CoreRefusal::OldPlace);
        }
        self.places[page as usize] = place;
        self.pending[guest] = Some(page);
        Ok(Answer::Done)
    }

    fn mark(&mut self, guest: usize) -> Result<Answer, CoreRefusal>
        ensures { Outcome self.old (Event.Mark guest) result self.new }
    {
        if guest >= self.pending.len() {
            return Err(CoreRefusal::NotOwner);
        }
        let Some(page) = self.pending[guest] else {
            return Err(CoreRefusal::NothingPending);
        };
        add_page(&mut self.dirty, page);
        self.pending[guest] = None;
        Ok(Answer::Done)
    }

    fn harvest(&mut self, copier: usize, word: usize) -> Result<Answer, CoreRefusal>
        ensures { Outcome self.old (Event.Harvest copier word) result self.new }
    {
        if !self.copier_owns(copier, word) {
            return Err(CoreRefusal::NotOwner);
        }
        let bits = bits_of(&self.dirty, word);
        clear_word(&mut self.dirty, word);
        add_bits(&mut self.held, word, bits);
        Ok(Answer::Pages(bits))
    }

    fn peek(&self, copier: usize, word: usize) -> Result<Answer, CoreRefusal>
        ensures { Outcome self.now (Event.Peek copier word) result self.now }
    {
        if !self.copier_owns(copier, word) {
            return Err(CoreRefusal::NotOwner);
        }
        Ok(Answer::Pages(bits_of(&self.dirty, word)))
    }

    fn restore(&mut self, copier: usize, word: usize, bits: u64) -> Result<Answer, CoreRefusal>
        ensures { Outcome self.old (Event.Restore copier word bits) result self.new }
    {
        if !self.copier_owns(copier, word) {
            return Err(CoreRefusal::NotOwner);
        }
        if !has_bits(&self.held, word, bits) {
            return Err(CoreRefusal::NotHeld);
        }
        remove_bits(&mut self.held, word, bits);
        add_bits(&mut self.dirty, word, bits);
        Ok(Answer::Done)
    }

    fn read(&mut self, copier: usize, page: u32) -> Result<Answer, CoreRefusal>
        ensures { Outcome self.old (Event.Read copier page) result self.new }
    {
        if !self.copier_owns_page(copier, page) {
            return Err(CoreRefusal::NotOwner);
        }
        if !has_page(&self.held, page) {
            return Err(CoreRefusal::NotHeld);
        }
        remove_page(&mut self.held, page);
        Ok(Answer::Place(self.places[page as usize]))
    }
}

fn happen(core: &mut Core, event: Event) -> Result<Answer, CoreRefusal>
    ensures { Outcome core.old event result core.new }
{
    match event {
        Event::Store { guest, page, place } => core.store(guest, page, place),
        Event::Mark { guest } => core.mark(guest),
        Event::Harvest { copier, word } => core.harvest(copier, word),
        Event::Peek { copier, word } => core.peek(copier, word),
        Event::Restore { copier, word, bits } => core.restore(copier, word, bits),
        Event::Read { copier, page } => core.read(copier, page),
    }
}

/// Takes one event. If an event has several causes to be refused, the error is the first in the order of their names. A
/// step allocates nothing, so it never returns `C6`.
pub fn step(core: &mut Core, event: Event) -> Result<Answer, CoreRefusal>
    ensures done { IfOk result (λ answer. Goes core.old event answer core.new) }
    ensures accepted { IsOk result ↔ FindsNeeds core.old event }
    ensures refused { IfErr result (λ refusal. Refuses core.old event refusal) }
    ensures unchanged { OnErr result (core.new ≡ core.old) }
    ensures sizes { kept_sizes core.new ≡ kept_sizes core.old }
{
    happen(core, event)
}
