//! Reports from the command line, with lines worked out by hand.

use super::{refuses, whole, writes};
use std::alloc::Global;
use std::process::Abort;
use worked_guest::{REPORT, changed};

/// The report with windows of 5,000 ticks, with a page that is hot in one of them.
static LONG_WINDOW: &str = "trace pages 4 size 16 writes 5
window 0 writes 5 pages 3 again 0 fresh 3
hot 1 pages 3
page 0
page 1
page 3
round 0 from 0 to 4 rate 1000 pages 4 sent 4 dirtied 1
stop few at 4 pages 1 down 1 total 5
";

/// The report on a trace without writes.
static NO_WRITES: &str = "trace pages 4 size 16 writes 0
hot 2 pages 0
round 0 from 0 to 2000 rate 2 pages 4 sent 4 dirtied 0
stop few at 2000 pages 0 down 0 total 4
";

#[test]
fn reports_working_sets(rt: HostRuntime) {
    const SLOW: [&str; 3] = [
        "report --min=2 --max=4 --inc=1 --threshold=1 --rounds=8",
        "report --min=2 --max=4 --inc=1 --threshold=1 --rounds=8 --workers=2",
        "report --min=2 --max=4 --inc=1 --threshold=1 --rounds=8 --workers=16",
    ];
    const LONG: [&str; 3] = [
        "report --window=5000 --hot 1 --workers=1",
        "report --window=5000 --hot 1 --workers=2",
        "report --window=5000 --hot 1 --workers=16",
    ];
    let alloc = rt.alloc();
    for line in SLOW {
        assert!(rt;
            writes(&rt, alloc, whole(&rt, alloc), line, REPORT.as_bytes()),
            "{line}"
        );
    }
    for line in LONG {
        assert!(rt;
            writes(&rt, alloc, whole(&rt, alloc), line, LONG_WINDOW.as_bytes()),
            "{line}"
        );
    }
}

#[test]
fn reports_a_trace_without_writes(rt: HostRuntime) {
    let bytes = changed(rt.alloc(), 16, 12, &[0], &[]).expect(&rt, "memory");
    let line = "report --min=2 --max=4 --inc=1 --threshold=1 --rounds=8";
    assert!(rt; writes(&rt, rt.alloc(), bytes, line, NO_WRITES.as_bytes()));
}

/// The report of the worked rounds that skip pages.
static SKIPPING: &str = "trace pages 4 size 16 writes 5
window 0 writes 2 pages 2 again 0 fresh 2
window 1 writes 1 pages 1 again 1 fresh 0
window 2 writes 2 pages 2 again 1 fresh 1
hot 2 pages 1
page 1
round 0 from 0 to 2000 rate 2 pages 4 sent 4 dirtied 2
round 1 from 2000 to 2500 rate 2 pages 2 sent 1 dirtied 2
stop fast at 2500 pages 2 down 500 total 7
";

/// Returns the trace with its last two writes a tick earlier.
fn earlier(rt: &impl Abort, alloc: Global) -> Vec<u8> {
    let mut bytes = whole(rt, alloc);
    for (place, byte) in bytes.iter_mut().enumerate() {
        if place == 67 || place == 85 {
            *byte = 0xc3;
        }
    }
    bytes
}

#[test]
fn reports_skipped_pages(rt: HostRuntime) {
    let bytes = earlier(&rt, rt.alloc());
    let line = "report --min=2 --max=4 --inc=1 --threshold=1 --rounds=8 --skip";
    assert!(rt; writes(&rt, rt.alloc(), bytes, line, SKIPPING.as_bytes()));
}

#[test]
fn refuses_settings_before_the_trace(rt: HostRuntime) {
    const CASES: [(&str, &str); 5] = [
        ("report --min=0", "precopy: settings S1\n"),
        ("report --max=500", "precopy: settings S2\n"),
        ("report --rounds=65", "precopy: settings S5\n"),
        ("report --hot=0", "precopy: settings S7\n"),
        ("report --workers=17", "precopy: settings S9\n"),
    ];
    for &(line, fault) in &CASES {
        assert!(rt; refuses(&rt, rt.alloc(), line, fault), "{line}");
    }
}
