//! Writable working sets by windows of ticks, and the pages that are hot.
#![tactic(auto)]

mod counting;
mod error;
mod hot;
mod joining;
mod laws;
mod lending;
mod pieces;
mod window;
mod window_tables;

pub use counting::PageSeen;
pub use error::TablesError;
pub use laws::each_write_has_its_row;
pub use lending::{WindowNumbers, has_rows, window_rows};
pub use window::{Tables, Window};
pub use window_tables::{par_tables, tables};
