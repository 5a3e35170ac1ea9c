//! A lock-free dirty log: guests store the places of their pages and mark them while copiers harvest the marks,
//! restore and read. Each step is one atomic operation on one word.
//!
//! A table opens with a version word for each page and a dirty word for each 64 pages: the dirty bitmap. It gives out a
//! seat for each guest and each copier, which goes to a thread of the caller's. A seat says when its steps may be taken
//! (`owns`, `pending`, `last`, `held`); no step waits or allocates. With all seats back, [`RoundTable::close`] returns
//! what is left: no page that was stored is lost.
//!
//! ```
//! // Four pages before any write, all of them marked; one guest and one copier.
//! let places = vec![in alloc; 0u32, 0u32, 0u32, 0u32]?;
//! let opening = Opening::new(places, vec![in alloc; 15u64]?, 1, 1).ok_or("an opening")?;
//! let Opened { table, mut guests, mut copiers } = RoundTable::open(alloc, opening)?;
//! let mut guest = guests.pop().ok_or("a guest")?;
//! let mut copier = copiers.pop().ok_or("a copier")?;
//!
//! // In the guest's thread: page 2 has the write at place 1.
//! guest.advance(&table, 2, 1);
//! guest.mark(&table);
//!
//! // In the copier's thread, at the same time: it takes the marks of word 0, and marks what it does not send again.
//! let marked = copier.harvest(&table, 0);
//! copier.restore(&table, 0, marked);
//!
//! // With the seats back: page 2 is at place 1, and marked.
//! let closed = table.close(vec![in alloc; guest]?, vec![in alloc; copier]?);
//! ```
//!
//! Tests make these calls, in one thread and in two: `rows::word` of the crate `memory_rows`.
#![tactic(auto)]

mod closed;
mod closing;
mod copier;
mod error;
mod guest;
mod opening;
mod rule;
mod table;

pub use closed::Closed;
pub use copier::CopySeat;
pub use error::TableError;
pub use guest::GuestSeat;
pub use rule::View;
pub use table::{Opened, RoundTable};
