//! Traces that are opened in place: an index over words that the caller lends says where the records are, and lists the
//! writes to each page. Nothing is copied, and nothing is allocated.
#![tactic(auto)]

mod open_trace;
mod places;
mod records;
mod walks;

pub use open_trace::{OpenTrace, index_length, put_index};
