//! Why bytes are no trace.

ghost use Rattle.std.specs.Prelude.{◌≡◌};
ghost use Rattle.trace_codec.specs.declared.error.TraceError.TheVariants.{Memory};

use std::alloc::{AllocError, AllocFailed};
use thiserror::Error;

/// Why bytes are no trace. An error is written as its name in fault lines, with the record if one is at fault; records
/// count from 0. If the bytes have several causes, the error is the first in the order of the names' numbers, with
/// `E15` before all others and `E8` to `E13` record by record.
#[derive(Clone, Copy, Debug, PartialEq, Eq, Error)]
pub enum TraceError {
    /// Fewer than 16 bytes.
    #[error("E1")]
    ShortHeader,
    /// Bytes 0 to 3 are not `PCWT`.
    #[error("E2")]
    BadMagic,
    /// The version is not 1 or 2.
    #[error("E3")]
    BadVersion,
    /// Byte 5 is not 4 to 12.
    #[error("E4")]
    BadShift,
    /// Byte 6 or 7 is not 0.
    #[error("E5")]
    BadReserved,
    /// Pages are not 1 to 65,536.
    #[error("E6")]
    BadPages,
    /// Writes are more than 1,048,576.
    #[error("E7")]
    TooManyWrites,
    /// Fewer than 16 bytes are left for a record, or fewer data bytes than its length says.
    #[error("E8 record {0}")]
    ShortRecord(u32),
    /// A tick is below that of the previous record.
    #[error("E9 record {0}")]
    TickOrder(u32),
    /// A tick is 2^40 or more.
    #[error("E10 record {0}")]
    TickTooLarge(u32),
    /// A page is not below the number of pages.
    #[error("E11 record {0}")]
    PageOutOfRange(u32),
    /// A length is 0, and the write is no release: in version 1, or in version 2 from an offset other than 0 on.
    #[error("E12 record {0}")]
    EmptyWrite(u32),
    /// Offset plus length is more than the page size.
    #[error("E13 record {0}")]
    OutOfPage(u32),
    /// Bytes follow the last record.
    #[error("E14")]
    TrailingBytes,
    /// More than 2^28 bytes.
    #[error("E15")]
    TooLong,
    /// Memory ran out.
    #[error("E16")]
    Memory,
    /// A read of the source failed.
    #[error("E17")]
    ReadFault,
}

impl From<AllocError> for TraceError {
    ghost from_gives = { λ _ e. e ≡ Memory };

    fn from(_error: AllocError) -> TraceError {
        TraceError::Memory
    }
}

impl<T: Drop> From<AllocFailed<T>> for TraceError {
    ghost from_gives = { λ _ e. e ≡ Memory };

    fn from(_error: AllocFailed<T>) -> TraceError {
        TraceError::Memory
    }
}
