//! Warm starts: the destination begins with the guest's memory before a base tick.

use super::live::leaves;
use super::writes;
use migration_jobs::Job;
use rate_limit::{Asked, Settings};
use std::alloc::Global;
use std::test::Fail;
use worked_guest::{ASKED, MEMORY, MEMORY_AT_1200, MEMORY_AT_2000, TRACE};

/// Returns slow rates from a start, over the memory before a base.
fn warm(base: u64, start: u64) -> Asked {
    Asked {
        start,
        base: Some(base),
        ..ASKED
    }
}

#[test]
fn writes_memory_of_a_warm_start(rt: HostRuntime) -> Result<(), Fail> {
    let alloc = rt.alloc();
    for workers in [1, 3] {
        let early = Asked {
            workers,
            ..warm(0, 1000)
        };
        let late = Asked {
            workers,
            ..warm(6, 1200)
        };
        assert!(rt; leaves(&rt, alloc, &TRACE, early, &MEMORY_AT_2000, &MEMORY)?);
        assert!(rt; leaves(&rt, alloc, &TRACE, late, &MEMORY_AT_1200, &MEMORY)?);
    }
    Ok(())
}

#[test]
fn reports_and_sweeps_a_warm_start(rt: HostRuntime) -> Result<(), Fail> {
    let alloc = rt.alloc();
    let mut cases = Vec::new(alloc);
    cases.push(Settings::new(warm(0, 1000))?)?;
    let sweep = Job::Sweep { cases, workers: 2 };
    let line =
        "case 0 min 2 max 4 inc 1 threshold 1 limit 8 skip 0 rounds 2 stop few at 2500 down 0 total 3\nbest 0\n";
    let report = Job::Report(Settings::new(warm(6, 1200))?);
    let text = "trace pages 4 size 16 writes 5
window 0 writes 2 pages 2 again 0 fresh 2
window 1 writes 1 pages 1 again 1 fresh 0
window 2 writes 2 pages 2 again 1 fresh 1
hot 2 pages 1
page 1
round 0 from 1200 to 1200 rate 2 pages 0 sent 0 dirtied 0
stop few at 1200 pages 0 down 0 total 0
";
    let swept = writes(&rt, alloc, &sweep, &TRACE, line.as_bytes())?;
    let reported = writes(&rt, alloc, &report, &TRACE, text.as_bytes())?;
    assert!(rt; (swept, reported) == (true, true));
    Ok(())
}
