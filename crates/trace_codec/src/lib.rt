//! Traces of guest writes: their format, read from bytes and from a source of bytes, and written.
//!
//! A [`Trace`] owns its writes and is valid by its type. [`TraceView`] leaves them in the bytes that were read, and
//! [`TraceReader`] hands them out record by record. Tables and plans take any [`Timeline`]; what needs the bytes of
//! writes takes any [`WriteLog`].
//!
//! A guest of 4 pages of `2^4` bytes writes page 1 at tick 5 and releases it at tick 9, which only version 2 has:
//!
//! ```
//! let mut writes = Vec::new(alloc);
//! writes.push(Write { tick: 5, page: 1, offset: 15, bytes: Vec::from_slice(alloc, &[2])? })?;
//! writes.push(Write { tick: 9, page: 1, offset: 0, bytes: Vec::new(alloc) })?;
//! let trace = Trace::new(2, 4, 4, writes)?;
//! let bytes = encode(alloc, &trace)?;
//! let again = decode(alloc, &bytes)?;
//! ```
//!
//! Tests make these calls: `traces_from_writes_with_a_release` and `encodes_its_own_version` of the crate `job_rows`.
#![tactic(auto)]

mod building;
mod decoding;
mod encoding;
mod error;
mod fields;
mod limits;
mod reader;
mod reading;
mod records;
mod source;
mod test_source;
mod timeline;
mod trace;
mod view;
mod write_log;

pub use decoding::decode;
pub use encoding::encode;
pub use error::TraceError;
pub use fields::read_header;
pub use guest_log::{Header, LAST_VERSION, Shape, Timeline, Touch, Write, WriteLog, WriteView};
pub use limits::{MAX_LENGTH, MAX_WRITES};
pub use reader::TraceReader;
pub use reading::{read_behind, read_bytes, read_trace};
pub use records::{Records, checked_write, first_write};
pub use source::{FromRead, Source};
pub use test_source::TestSource;
pub use trace::Trace;
pub use view::TraceView;
