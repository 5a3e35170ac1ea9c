//! Frames dealt out to streams.
#![tactic(auto)]

mod dealer;
mod error;
mod splitting;

pub use dealer::Dealer;
pub use error::SplitError;
pub use splitting::{empty_streams, split};
