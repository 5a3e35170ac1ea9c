//! Traces of no version, with other causes after the header: every reader names the version.

use super::incoming::{held, visited};
use super::released::{RELEASED, refusals};
use std::alloc::{AllocError, Global};
use std::test::Fail;
use trace_codec::TraceError;
use worked_guest::TRACE;

/// A cause after the header of a trace.
#[derive(Clone, Copy, Debug)]
enum Cause {
    ByteMore,
    ShortRecord,
    TickOrder,
}

/// Returns the trace in a version that does not exist, with a cause after its header.
fn of_no_version(alloc: Global, trace: &[u8], cause: Cause) -> Result<Vec<u8>, AllocError> {
    let mut bytes = Vec::from_slice(alloc, trace)?;
    for (place, byte) in bytes.iter_mut().enumerate() {
        match cause {
            // The high byte of the fourth write's tick, so that it comes before the third's.
            Cause::TickOrder if place == 68 => *byte = 3,
            _ if place == 4 => *byte = 3,
            _ => {}
        }
    }
    match cause {
        Cause::ByteMore => bytes.push(0)?,
        Cause::ShortRecord => bytes.truncate(trace.len().saturating_sub(1)),
        Cause::TickOrder => {}
    }
    Ok(bytes)
}

#[test]
fn readers_name_the_version_first(rt: HostRuntime) -> Result<(), Fail> {
    let alloc = rt.alloc();
    for cause in [Cause::ByteMore, Cause::ShortRecord, Cause::TickOrder] {
        for trace in [TRACE.as_slice(), RELEASED.as_slice()] {
            let bytes = of_no_version(alloc, trace, cause)?;
            let error = Some(TraceError::BadVersion);
            assert!(rt; refusals(alloc, &bytes)? == [error; 7], "{cause:?}");
        }
    }
    Ok(())
}

#[test]
fn a_trace_on_its_way_names_the_version_first(rt: HostRuntime) -> Result<(), Fail> {
    let alloc = rt.alloc();
    for cause in [Cause::ByteMore, Cause::ShortRecord, Cause::TickOrder] {
        for trace in [TRACE.as_slice(), RELEASED.as_slice()] {
            for least in [0u8, 70] {
                let visit = visited(alloc, of_no_version(alloc, trace, cause)?, 20, least).err();
                let hold = held(alloc, of_no_version(alloc, trace, cause)?, 20, least).err();
                let error = Some(TraceError::BadVersion);
                assert!(rt; [visit, hold] == [error; 2], "{cause:?}");
            }
        }
    }
    Ok(())
}
