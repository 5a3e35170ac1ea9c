//! Live runs from the command line.

use super::{cut, fails, is_not_taken, refuses, whole, writes};
use worked_guest::{MEMORY, MEMORY_AT_2000};

#[test]
fn runs_live_by_the_command_line(rt: HostRuntime) {
    const LINES: [&str; 2] = [
        "live",
        "live --min=2 --max=2 --inc=1 --threshold=1 --rounds=1",
    ];
    const STOPPED: [&str; 2] = [
        "live --at-stop --min 2 --max 2 --inc 1 --threshold 1 --rounds 1",
        "live --start=2000 --workers=16 --streams=16 --replayers=16 --lane=1 --skip --at-stop",
    ];
    let alloc = rt.alloc();
    for line in LINES {
        assert!(rt;
            writes(&rt, alloc, whole(&rt, alloc), line, &MEMORY),
            "{line}"
        );
    }
    for line in STOPPED {
        assert!(rt;
            writes(&rt, alloc, whole(&rt, alloc), line, &MEMORY_AT_2000),
            "{line}"
        );
    }
}

#[test]
fn refuses_live_words_before_the_trace(rt: HostRuntime) {
    const CASES: [(&str, &str); 8] = [
        ("live --min=0", "precopy: settings S1\n"),
        ("live --max=500", "precopy: settings S2\n"),
        ("live --inc=1000001", "precopy: settings S3\n"),
        ("live --rounds=65", "precopy: settings S5\n"),
        ("live --workers=17", "precopy: settings S9\n"),
        ("live --streams=0", "precopy: settings S9\n"),
        ("live --replayers=17", "precopy: settings S9\n"),
        ("live --lane=0", "precopy: settings S9\n"),
    ];
    for &(line, fault) in &CASES {
        assert!(rt; refuses(&rt, rt.alloc(), line, fault), "{line}");
    }
}

#[test]
fn runs_nothing_live_by_unknown_words(rt: HostRuntime) {
    const LINES: [&str; 5] = [
        "live --window=1",
        "live --hot=1",
        "live --at-stop=1",
        "live --at-stop --at-stop",
        "live --streams x",
    ];
    for line in LINES {
        assert!(rt; is_not_taken(&rt, rt.alloc(), line), "{line}");
    }
}

#[test]
fn says_why_a_live_run_ends(rt: HostRuntime) {
    const CASES: [(usize, &str); 3] = [
        (0, "precopy: trace E1\n"),
        (103, "precopy: trace E14\n"),
        (101, "precopy: trace E8 record 4\n"),
    ];
    let alloc = rt.alloc();
    for &(len, fault) in &CASES {
        assert!(rt;
            fails(&rt, alloc, cut(&rt, alloc, len), "live", 1, fault).expect(&rt, "memory"),
            "{fault}"
        );
    }
}
