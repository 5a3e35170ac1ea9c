//! The dirty core: guests store and mark pages, copiers harvest, restore and read them, one event after another on one
//! thread. No list of events loses a changed page.
#![tactic(auto)]

mod answer;
mod event;
mod laws;
mod machine;
mod opening;
mod refusal;
mod running;

pub use answer::Answer;
pub use event::Event;
pub use laws::{one_step, one_stop};
pub use machine::{Core, step};
pub use opening::{MAX_PAGES, MAX_SEATS, Opening};
pub use refusal::CoreRefusal;
pub use running::{every_page, run};
