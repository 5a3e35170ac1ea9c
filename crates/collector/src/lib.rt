//! Parts of a guest's memory, assembled from frames in whatever order they arrive.
#![tactic(auto)]

mod error;
mod fate;
mod laws;
mod of_image;
mod part;
mod table;

pub use error::PartError;
pub use fate::{Fate, one_fate};
pub use laws::one_refused_frame;
pub use part::{Part, merge};
