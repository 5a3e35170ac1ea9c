//! Memory after the writes of a trace, as copies of these writes: they are dealt to pieces of memory while they come,
//! and each piece is made from its own ones.
#![tactic(auto)]

mod memory;
mod piece_writes;

pub use memory::DealtMemory;
