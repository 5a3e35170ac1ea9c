//! Single pages of a bitmap, and the pages of one word.

ghost use Rattle.std.specs.Prelude.{◌≡◌, ◌↔◌, ◌/◌, ◌<◌, ◌≤◌, ◌^◌, ℕ, IsTrue, length};
ghost use Rattle.page_bitmap.specs.Listing.{word_count};
ghost use Rattle.page_bitmap.specs.Pages.{in_words, one_page, word_pages, bit_pages, union, common, minus, IsWithin};
ghost use Rattle.page_bitmap.specs.Pages.{SamePages};

/// Returns whether a page is in the set. No page past the words is.
pub fn has_page(words: &[u64], page: u32) -> bool
    ensures { result ≡ in_words words.now page }
{
    let word = (page / 64) as usize;
    word < words.len() && (words[word] >> (page % 64)) & 1 == 1
}

/// Adds a page to the set.
pub fn add_page(words: &mut [u64], page: u32)
    requires { page / 64 < length words.old }
    ensures pages { SamePages (in_words words.new) (union (in_words words.old) (one_page page)) }
    ensures len { length words.new ≡ length words.old }
{
    add_bits(words, (page / 64) as usize, 1 << (page % 64));
}

/// Removes a page from the set.
pub fn remove_page(words: &mut [u64], page: u32)
    requires { page / 64 < length words.old }
    ensures pages { SamePages (in_words words.new) (minus (in_words words.old) (one_page page)) }
    ensures len { length words.new ≡ length words.old }
{
    remove_bits(words, (page / 64) as usize, 1 << (page % 64));
}

/// Returns whether all pages that `bits` of word `word` name are in the set.
pub fn has_bits(words: &[u64], word: usize, bits: u64) -> bool
    requires { word < length words.now }
    ensures { IsTrue result ↔ IsWithin (bit_pages word bits) (in_words words.now) }
{
    words[word] & bits == bits
}

/// Returns the pages of word `word` that are in the set, as bits.
pub fn bits_of(words: &[u64], word: usize) -> u64
    requires { word < length words.now }
    ensures pages { SamePages (bit_pages word result) (common (word_pages word) (in_words words.now)) }
    ensures fits { result < 2 ^ 64 }
{
    words[word]
}

/// Adds the pages that `bits` of word `word` name.
pub fn add_bits(words: &mut [u64], word: usize, bits: u64)
    requires { word < length words.old }
    ensures pages { SamePages (in_words words.new) (union (in_words words.old) (bit_pages word bits)) }
    ensures len { length words.new ≡ length words.old }
{
    words[word] |= bits;
}

/// Removes the pages that `bits` of word `word` name.
pub fn remove_bits(words: &mut [u64], word: usize, bits: u64)
    requires { word < length words.old }
    ensures pages { SamePages (in_words words.new) (minus (in_words words.old) (bit_pages word bits)) }
    ensures len { length words.new ≡ length words.old }
{
    words[word] &= !bits;
}

/// Removes all pages of word `word`.
pub fn clear_word(words: &mut [u64], word: usize)
    requires { word < length words.old }
    ensures pages { SamePages (in_words words.new) (minus (in_words words.old) (word_pages word)) }
    ensures len { length words.new ≡ length words.old }
{
    words[word] = 0;
}

/// Returns whether all pages of the set are below `pages`. The set has exactly as many words as `pages` pages need.
pub fn ends_before(words: &[u64], pages: usize) -> bool
    requires some { 1 ≤ pages }
    requires words { length words.now ≡ word_count pages }
    ensures { IsTrue result ↔ ((page : ℕ) → IsTrue (in_words words.now page) → page < pages) }
{
    let used = pages % 64;
    used == 0 || words[words.len() - 1] >> used == 0
}
