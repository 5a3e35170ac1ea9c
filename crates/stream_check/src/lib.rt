//! A checker of migration streams: it names the first thing that is wrong in them, against the trace of the guest.
//!
//! A migration stops its guest after some number of writes, and sends frames of pages in one stream or several. The
//! checker takes each stream in pieces, one stream after the other. A frame is right if it has a version of its page
//! from before the stop, with the bytes that the trace gives, and if no frame of the page that came before it in its
//! stream is newer. At the end each page must have come at its version at the stop.
#![tactic(auto)]

mod bytes;
mod checker;
mod ending;
mod error;
mod faults;
mod laws;
mod stamps;
mod streams;
mod taken;
mod testing;

pub use bytes::has_bytes;
pub use checker::{StreamChecker, end_at};
pub use ending::tick_of;
pub use error::StreamsError;
pub use faults::{FrameCause, FrameFault, WrongFrame, WrongPage};
pub use laws::{
    one_first_thing, one_wrong_frame, one_wrong_page, pieces_are_as_the_whole,
    right_streams_make_memory, versions_are_as_at_the_stop,
};
pub use streams::check_streams;
pub use taken::Taken;
