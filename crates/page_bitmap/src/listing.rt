//! Whole bitmaps, and the lists of their pages.

ghost use Rattle.std.specs.Prelude.{◌≡◌, ◌≤◌, ◌<◌, ◌+◌, ◌++◌, ℕ, IfOk, length, nat_lt, take};
ghost use Rattle.page_bitmap.specs.Listing.{pages_of, pages_of_word, word_count};
ghost use Rattle.page_bitmap.specs.Pages.{in_words};

use crate::words::add_page;
use std::alloc::{AllocError, Global};

/// Returns how many words a bitmap of `pages` pages has: one for each 64 pages begun.
pub fn word_count(pages: usize) -> usize
    ensures { result ≡ word_count pages }
{
    pages.div_ceil(64)
}

/// Returns the bitmap in which each page below `pages` is set, and no other. The only error is that memory runs out.
pub fn all_pages(alloc: Global, pages: u32) -> Result<Vec<u64>, AllocError>
    ensures words { IfOk result (λ v. length v.items ≡ word_count pages) }
    ensures pages { IfOk result (λ v. (page : ℕ) → in_words v.items page ≡ nat_lt page pages) }
{
    let mut words = Vec::from_elem(alloc, 0u64, word_count(pages as usize))?;
    for page in 0..pages {
        add_page(&mut words, page);
    }
    Ok(words)
}

/// Writes the pages that `bits` of word `word` name into `buffer`, in ascending order, from `slot` on. Returns the slot
/// after the last.
fn list_word(word: usize, bits: u64, buffer: &mut [u32], slot: usize) -> usize
    requires word { word < 1_024 }
    requires long { slot + length (pages_of_word word bits) ≤ length buffer.old }
    ensures listed { take result buffer.new ≡ take slot buffer.old ++ pages_of_word word bits }
    ensures slot { result ≡ slot + length (pages_of_word word bits) }
    ensures len { length buffer.new ≡ length buffer.old }
{
    let mut left = bits;
    let mut next = slot;
    while left != 0 {
        let lowest = left.trailing_zeros();
        buffer[next] = word as u32 * 64 + lowest;
        next += 1;
        left &= !(1 << lowest);
    }
    next
}

/// Writes the pages of a bitmap into the front of `buffer`, in ascending order. Returns how many there are.
pub fn list_pages(words: &[u64], buffer: &mut [u32]) -> usize
    requires few { length words.now ≤ 1_024 }
    requires long { length (pages_of words.now) ≤ length buffer.old }
    ensures listed { take result buffer.new ≡ pages_of words.now }
    ensures count { result ≡ length (pages_of words.now) }
    ensures len { length buffer.new ≡ length buffer.old }
{
    let mut count = 0usize;
    for word in 0..words.len() {
        count = list_word(word, words[word], buffer, count);
    }
    count
}

/// Returns the pages of a bitmap, in ascending order. It allocates 4 bytes for each bit of the words, so 256 bytes a
/// word; the only error is that memory runs out.
pub fn pages_in(alloc: Global, words: &[u64]) -> Result<Vec<u32>, AllocError>
    requires { length words.now ≤ 1_024 }
    ensures { IfOk result (λ pages. pages.items ≡ pages_of words.now) }
{
    let mut pages = Vec::from_elem(alloc, 0, words.len() * 64)?;
    let count = list_pages(words, &mut pages);
    pages.truncate(count);
    Ok(pages)
}
