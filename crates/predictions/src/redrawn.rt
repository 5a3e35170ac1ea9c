//! Plans of pages that are drawn again: how far chance moves a plan of sampled pages.
//!
//! A sample has some of a guest's pages. Another draw would have had others, and another plan. The bootstrap of Efron
//! (1979) takes the sample for the guest: it draws as many pages from it, with replacement, and plans for these.

mod courses;
mod draws;
mod errors;
mod plans;
mod roots;
mod spread;
mod sums;
mod walk;

pub(crate) use courses::drawn_course;
pub use courses::redrawn_course;
pub use errors::{Errors, has_errors, sample_errors};
pub use plans::{are_drawn, redrawn_outcome};
