//! Sweeps from the command line, with lines worked out by hand.

use super::{is_not_taken, refuses, whole, writes};
use std::alloc::Global;
use std::process::Abort;

/// Three cases, the first of which is the best.
const THREE: &str =
    "case 0 min 2 max 4 inc 1 threshold 1 limit 8 skip 0 rounds 3 stop few at 3667 down 0 total 8
case 1 min 2 max 2 inc 1 threshold 1 limit 8 skip 0 rounds 2 stop fast at 3000 down 1000 total 8
case 2 min 2 max 4 inc 1 threshold 3 limit 8 skip 0 rounds 1 stop few at 2000 down 500 total 6
best 0
";

/// One case twice.
const TWICE: &str =
    "case 0 min 2 max 4 inc 1 threshold 1 limit 8 skip 0 rounds 3 stop few at 3667 down 0 total 8
case 1 min 2 max 4 inc 1 threshold 1 limit 8 skip 0 rounds 3 stop few at 3667 down 0 total 8
best 0
";

/// One case twice, later.
const TWICE_LATER: &str =
    "case 0 min 2 max 4 inc 1 threshold 1 limit 8 skip 0 rounds 1 stop few at 5000 down 0 total 4
case 1 min 2 max 4 inc 1 threshold 1 limit 8 skip 0 rounds 1 stop few at 5000 down 0 total 4
best 0
";

/// A warm start: two pages were written between the base and the first round.
const WARM: &str =
    "case 0 min 2 max 4 inc 1 threshold 1 limit 8 skip 0 rounds 1 stop few at 4000 down 0 total 2
best 0
";

#[test]
fn sweeps_cases(rt: HostRuntime) {
    const CASES: [(&str, &str); 4] = [
        ("sweep 02,4,1,1,8,0 2,2,1,1,8,0 2,4,1,3,8,000", THREE),
        ("sweep 2,4,1,1,8,0 2,4,1,1,8,0", TWICE),
        (
            "sweep 2,4,1,1,8,0 --workers=16 2,4,1,1,8,0 --start 3000",
            TWICE_LATER,
        ),
        ("sweep 2,4,1,1,8,0 --start 3000 --base=2000", WARM),
    ];
    let alloc = rt.alloc();
    for &(line, expected) in &CASES {
        assert!(rt;
            writes(&rt, alloc, whole(&rt, alloc), line, expected.as_bytes()),
            "{line}"
        );
    }
}

#[test]
fn refuses_cases_before_the_trace(rt: HostRuntime) {
    // The eighth line ends in a space, so its last word is empty.
    const CASES: [(&str, &str); 12] = [
        ("sweep 2,4,1,1,8", "precopy: case 0\n"),
        ("sweep 2,4,1,1,8,0,0", "precopy: case 0\n"),
        ("sweep 2,4,1,1,8,2", "precopy: case 0\n"),
        ("sweep 2,4,1,1,8,", "precopy: case 0\n"),
        ("sweep 2,4,1,1,+8,0", "precopy: case 0\n"),
        ("sweep 2,4,1,1,00000000000008,0", "precopy: case 0\n"),
        ("sweep -", "precopy: case 0\n"),
        ("sweep 2,4,1,1,8,0 ", "precopy: case 1\n"),
        ("sweep 2,4,1,1,8,0 -- -2,4,1,1,8,0", "precopy: case 1\n"),
        ("sweep 2,4,1,1,8,0 2,1,1,1,8,0", "precopy: case 1 S2\n"),
        ("sweep 2,1,1,1,8,0 2,4", "precopy: case 0 S2\n"),
        ("sweep --workers=17 2,4,1,1,8,0", "precopy: case 0 S9\n"),
    ];
    for &(line, fault) in &CASES {
        assert!(rt; refuses(&rt, rt.alloc(), line, fault), "{line}");
    }
}

#[test]
fn sweeps_nothing_by_unknown_words(rt: HostRuntime) {
    const LINES: [&str; 3] = ["sweep", "sweep -2,4,1,1,8,0", "sweep 2,4,1,1,8,0 --start x"];
    for line in LINES {
        assert!(rt; is_not_taken(&rt, rt.alloc(), line), "{line}");
    }
}

/// Returns a sweep of as many cases, each of which is too short.
fn short_cases(rt: &impl Abort, alloc: Global, count: usize) -> String {
    let mut line = "sweep".to_string(alloc).expect(rt, "memory");
    for _ in 0..count {
        line.push_str(" 2,4").expect(rt, "memory");
    }
    line
}

#[test]
fn refuses_too_many_cases(rt: HostRuntime) {
    const CASES: [(usize, &str); 2] = [(256, "precopy: case 0\n"), (257, "precopy: cases\n")];
    for &(count, fault) in &CASES {
        let line = short_cases(&rt, rt.alloc(), count);
        assert!(rt; refuses(&rt, rt.alloc(), &line, fault), "{fault}");
    }
}
