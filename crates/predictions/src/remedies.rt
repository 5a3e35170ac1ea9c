//! What is enough for the downtime limit of a migration: the least link, the least downtime, and how much the guest has
//! to be slowed; and what ends it within the trace: the least link, and the latest start. Each is found by plans.

mod aim;
mod change;
mod ending;
mod finding;
mod numbers;
mod remedies_text;
mod search;
mod trial;
mod way;

pub use change::Change;
pub use ending::Ending;
pub use finding::{Remedies, remedies_of};
pub use numbers::RemedyNumbers;
pub use remedies_text::push_remedies;
pub use trial::{Trial, keeps_limit};
