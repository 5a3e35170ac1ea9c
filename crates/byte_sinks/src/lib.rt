//! Where bytes go: sinks, and memory that is written to them in pieces.
#![tactic(auto)]

mod error;
mod making;
mod memory_writing;
mod paged_memory;
mod pieced_memory;
mod sink;
mod test_sink;
mod writing;

pub use error::SinkError;
pub use memory_writing::write_memory;
pub use paged_memory::PagedMemory;
pub use pieced_memory::{PiecedMemory, piece_by_pages, piece_pages};
pub use sink::{FromWrite, Sink};
pub use test_sink::TestSink;
pub use writing::write_out;
