//! Sweeps over no cases.

use super::{ran, sink};
use migration_jobs::{Job, RunError};
use std::test::Fail;
use trace_codec::{TestSource, TraceError};
use worked_guest::changed;

#[test]
fn sweeps_no_case(rt: HostRuntime) -> Result<(), Fail> {
    let alloc = rt.alloc();
    const ANSWERS: [(usize, Result<(), RunError>); 2] = [
        (102, Ok(())),
        (101, Err(RunError::Trace(TraceError::ShortRecord(4)))),
    ];
    for &(len, expected) in &ANSWERS {
        let job = Job::Sweep {
            cases: Vec::new(alloc),
            workers: 16,
        };
        let source = TestSource::new(changed(alloc, len, 0, &[], &[])?, 102, None);
        let (answer, sink) = ran(&rt, alloc, &job, source, sink(alloc));
        assert!(rt;
            answer == expected && sink.bytes().is_empty(),
            "{len} bytes"
        );
    }
    Ok(())
}
