//! The receivers of the streams of a live migration: each takes frames from the lanes of its stream into its part.
#![tactic(auto)]

mod error;
mod first_part;
mod keeping;
mod laws;
mod receiver;
mod taking;

pub use error::ReceiverError;
pub use first_part::join_first;
pub use laws::{final_copy_is_a_join, first_part_is_joined, received_part_is_a_join};
pub use receiver::Receiver;
