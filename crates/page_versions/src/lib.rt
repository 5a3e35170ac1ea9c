//! The versions of pages: where a trace writes each page, and a page's bytes after the trace's first `n` writes.
//!
//! Where the writes of a page lie far apart in a trace, looking each of them up takes longer than applying it: short
//! writes to many pages are copied side by side, page by page, and pages are made from these copies.
#![tactic(auto)]

mod bytes;
mod checkpoints;
mod error;
mod index;
mod index_parts;
mod laying;
mod packed;
mod page_writes;
mod runs;
mod searching;
mod source;
mod trace_pages;

pub use bytes::put_writes;
pub use error::IndexError;
pub use index::{PageIndex, PageProgress};
pub use packed::{PackedWrites, are_short};
pub use source::PageSource;
pub use trace_pages::TracePages;
