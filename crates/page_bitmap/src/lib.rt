//! Bitmaps of pages: a word for each 64 pages begun, the lowest bit first.
//!
//! A dirty bitmap has a bit for each page of a guest (Clark and others 2005, section 5.1). These functions read and
//! change a slice of words in place, and list the pages of one in ascending order.
#![tactic(auto)]

mod listing;
mod words;

pub use listing::{all_pages, list_pages, pages_in, word_count};
pub use words::{
    add_bits, add_page, bits_of, clear_word, ends_before, has_bits, has_page, remove_bits,
    remove_page,
};
