//! At which shares of its link a migration has the verdict that it has at all of it.

mod search;
mod share;
mod share_text;

pub use search::link_share_of;
pub use share::LinkShare;
pub use share_text::push_share;
