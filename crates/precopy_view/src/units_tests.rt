//! Worked examples of times and bytes: of reports, and of starts.

use crate::tests::{draws, ends_with, fails, writes};

// The limits below: a link of 64 pages of the guest in 1,000 ticks, and a guest of which one page in four was recorded.

/// The report on the trace in times and bytes: 4 pages are sent in 250 ticks, and 2 of them are dirtied meanwhile.
static SCREEN: &str = "trace: 4 pages of 16 bytes, 5 writes
a tick is 1000 us; the trace has 4 of the guest's 16 pages

windows of 1.000 s; written: █ again ▓ earlier ░ fresh
      window        from     written
           0     0.000 s   128 bytes  ░░░░░░░░░░░░░░░░░░░░░░░░░░░░░░░░░░░░░░░░░░░░
           1     1.000 s    64 bytes  ██████████████████████
           2     2.000 s   128 bytes  ██████████████████████░░░░░░░░░░░░░░░░░░░░░░

hot pages, in 2 windows or more: 1
 1
 | █  |

round  0   0.000 s to 0.250 s   256 bytes sent   128 bytes dirtied   100% of link

stop: few, at 0.250 s
left: 128 bytes
downtime: 125 ms
sent in all: 384 bytes
";

#[test]
fn shows_times_and_bytes(rt: HostRuntime) {
    let line =
        "show --width=82 --link=1KiB --downtime=200ms --reserve=10ms --page=16 --sampled=4/16";
    assert!(rt; writes(&rt, rt.alloc(), line, 0, SCREEN));
}

/// Advice for a downtime of 200 ticks: the rate is 16 pages in 1,000 ticks, at which 3 pages take less than that. Case
/// 7 sends 4 pages until tick 250, then 2 until tick 375, while none is dirtied. With two standard errors its downtime
/// is within the limit.
static ADVICE: &str = "budget down 200
grid start 0
grid max 16
grid min 16 8 4 2
grid inc 0 3
grid threshold 4 2 1 1 1
grid limit 2 8 30
grid skip 0 1
cases 241 fits 7
time 375 ms, sent 384 bytes, downtime 0 s +- 22 ms
case 7 min 16 max 16 inc 0 threshold 2 limit 2 skip 0 rounds 2 stop few at 375 down 0 total 6
precopy live --min 16 --max 16 --inc 0 --threshold 2 --rounds 2 --start 0
";

#[test]
fn advises_for_a_downtime_in_time(rt: HostRuntime) {
    let line = "advise --link=1KiB --downtime=200ms --page=16 --sampled=4/16";
    assert!(rt; writes(&rt, rt.alloc(), line, 0, ADVICE));
}

/// The worked sweep of one case as a document: a page of the trace stands for 64 bytes of the guest.
static SWEEP: &str = "{\"units\":{\"tick_seconds\":0.001000,\"page_bytes\":16,\"sampled_pages\":4,\
\"guest_pages\":16},\"cases\":[{\"case\":0,\"min\":2,\"max\":4,\"inc\":1,\"threshold\":1,\"limit\":8,\
\"skip\":false,\"rounds\":3,\"stop\":\"few\",\"at\":3667,\"down\":0,\"total\":8,\"at_seconds\":3.667000,\
\"down_seconds\":0.000000,\"total_bytes\":512}],\"best\":0}\n";

#[test]
fn writes_a_sweep_in_times_and_bytes(rt: HostRuntime) {
    let line = "json sweep --page=16 --sampled=4/16 2,4,1,1,8,0";
    assert!(rt; writes(&rt, rt.alloc(), line, 0, SWEEP));
}

#[test]
fn refuses_two_budgets_and_none(rt: HostRuntime) {
    const CASES: [(&str, &str); 3] = [
        (
            "advise --max=4",
            "precopy-view: --down is needed, or --link and --downtime, as in --link 10Gbit --downtime 300ms\n",
        ),
        (
            "advise --down=3 --link=1KiB --downtime=1s",
            "precopy-view: --down cannot be used with --link and --downtime\n",
        ),
        (
            "json sweep --tick=0s 2,4,1,1,8,0",
            "precopy-view: --tick 0us: a tick is 1us to 1s; the nearest is 1us\n",
        ),
    ];
    for &(line, fault) in &CASES {
        assert!(rt; fails(&rt, rt.alloc(), 102, line, 2, fault), "{fault}");
    }
}

/// The same as a document.
static REPORT: &str = "{\"trace\":{\"pages\":4,\"size\":16,\"writes\":5},\
\"units\":{\"tick_seconds\":0.001000,\"window_seconds\":1.000000,\"page_bytes\":16,\"sampled_pages\":4,\
\"guest_pages\":16},\"windows\":[\
{\"window\":0,\"writes\":2,\"pages\":2,\"again\":0,\"fresh\":2,\"bytes\":128},\
{\"window\":1,\"writes\":1,\"pages\":1,\"again\":1,\"fresh\":0,\"bytes\":64},\
{\"window\":2,\"writes\":2,\"pages\":2,\"again\":1,\"fresh\":1,\"bytes\":128}],\
\"hot\":{\"windows\":2,\"pages\":[1]},\"rounds\":[\
{\"round\":0,\"from\":0,\"to\":250,\"rate\":16,\"pages\":4,\"sent\":4,\"dirtied\":2,\"from_seconds\":0.000000,\
\"to_seconds\":0.250000,\"sent_bytes\":256,\"dirtied_bytes\":128,\"link_share\":1.000000}],\
\"stop\":{\"why\":\"few\",\"at\":250,\"pages\":2,\"down\":125,\"total\":6,\"at_seconds\":0.250000,\"bytes\":128,\
\"down_seconds\":0.125000,\"total_bytes\":384}}\n";

#[test]
fn writes_times_and_bytes(rt: HostRuntime) {
    let line = "json report --link=1KiB --downtime=200ms --reserve=10ms --page=16 --sampled=4/16";
    assert!(rt; writes(&rt, rt.alloc(), line, 0, REPORT));
}

/// The prediction of `tests` as a document.
static PREDICTED: &str =
    "{\"units\":{\"tick_seconds\":0.001000,\"page_bytes\":16,\"sampled_pages\":4,\
\"guest_pages\":16},\"limits\":{\"link_bytes\":1024,\"down_seconds\":0.200000,\"reserve_seconds\":0.010000},\
\"settings\":{\"min\":16,\"max\":16,\"inc\":0,\"threshold\":4,\"limit\":30,\"skip\":false,\"start\":0},\
\"plan\":\"rounds\",\"converges\":\"yes\",\"kept\":\"uncertain\",\"recorded_seconds\":2.500000,\
\"migration\":{\"why\":\"few\",\"rounds\":1,\"time_seconds\":0.385000,\"sent_bytes\":384,\
\"down_seconds\":0.135000,\"left_pages\":2,\"errors\":{\"sent_bytes\":64,\
\"time_seconds\":0.054082,\"down_seconds\":0.060686}},\
\"like_qemu\":{\"looks\":2,\"time_seconds\":0.398000,\"sent_bytes\":320,\"down_seconds\":0.198000,\"kept\":true},\
\"redraws\":{\"count\":20,\"known\":20,\"converging\":20,\"kept\":20},\
\"starts\":{\"count\":21,\"known\":19,\"converging\":19,\"kept\":19,\
\"least\":{\"time_seconds\":0.260000,\"sent_bytes\":256,\"down_seconds\":0.010000},\
\"greatest\":{\"time_seconds\":0.385000,\"sent_bytes\":384,\"down_seconds\":0.135000}},\
\"link_shares\":{\"converges\":\"yes\",\"percent\":50},\
\"enough\":{\"answer\":\"uncertain\"},\
\"hosts\":{\"bandwidth_bytes\":1024,\"down_milliseconds\":190}}\n";

/// The same from a tick from which the trace ends before the migration does.
static UNKNOWN: &str =
    "{\"units\":{\"tick_seconds\":0.001000,\"page_bytes\":16,\"sampled_pages\":4,\
\"guest_pages\":16},\"limits\":{\"link_bytes\":1024,\"down_seconds\":0.200000,\"reserve_seconds\":0.010000},\
\"settings\":{\"min\":16,\"max\":16,\"inc\":0,\"threshold\":4,\"limit\":30,\"skip\":false,\"start\":2400},\
\"plan\":\"rounds\",\"converges\":\"unknown\",\"kept\":\"unknown\",\"recorded_seconds\":0.100000,\
\"like_qemu\":{\"looks\":1,\"time_seconds\":0.298000,\"sent_bytes\":256,\"down_seconds\":0.198000,\"kept\":true},\
\"redraws\":{\"count\":20,\"known\":0,\"converging\":0,\"kept\":0},\
\"starts\":{\"count\":21,\"known\":19,\"converging\":19,\"kept\":19,\
\"least\":{\"time_seconds\":0.260000,\"sent_bytes\":256,\"down_seconds\":0.010000},\
\"greatest\":{\"time_seconds\":0.385000,\"sent_bytes\":384,\"down_seconds\":0.135000}},\
\"enough\":{\"answer\":\"unknown\",\"link_bytes\":2625,\"guest_percent\":40,\"ending_link_bytes\":2625,\
\"ending_start\":2250},\
\"hosts\":{\"bandwidth_bytes\":1024,\"down_milliseconds\":190}}\n";

#[test]
fn predicts_as_a_document(rt: HostRuntime) {
    let line =
        "json predict --clark --link=1KiB --downtime=200ms --reserve=10ms --page=16 --sampled=4/16 --start=0";
    assert!(rt; writes(&rt, rt.alloc(), line, 5, PREDICTED));
    let line =
        "json predict --clark --link=1KiB --downtime=200ms --reserve=10ms --page=16 --sampled=4/16 --start=2400";
    assert!(rt; writes(&rt, rt.alloc(), line, 4, UNKNOWN));
}

/// Starts at every 800th tick up to 2400. Only from 0 and from 2400 on are pages written in the 250 ticks of the
/// first round: 2 of them, which take another 125 ticks. The migration from 2400 on ends after the last tick of the
/// trace, 2500.
static STARTS: &str = "          tick         start          time          sent      downtime
             0       0.000 s        385 ms     384 bytes        135 ms  kept
           800       0.800 s        260 ms     256 bytes         10 ms  kept
          1600       1.600 s        260 ms     256 bytes         10 ms  kept
          2400       2.400 s        385 ms     384 bytes        135 ms  unknown
best:  0.800 s, --start 800: time 260 ms, sent 256 bytes, downtime 10 ms +- 0 s, kept
worst: 0.000 s, --start 0: time 385 ms, sent 384 bytes, downtime 135 ms, kept
";

#[test]
fn tells_when_to_migrate(rt: HostRuntime) {
    let line =
        "when --clark --link=1KiB --downtime=200ms --reserve=10ms --page=16 --sampled=4/16 --every=800 --to=2400";
    assert!(rt; writes(&rt, rt.alloc(), line, 0, STARTS));
}

/// Two starts as a document.
static DOCUMENT: &str = "{\"limit_seconds\":0.100000,\"plan\":\"rounds\",\"starts\":[\
{\"start\":0,\"start_seconds\":0.000000,\"rounds\":1,\"time_seconds\":0.385000,\"sent_bytes\":384,\
\"down_seconds\":0.135000,\"kept\":\"no\"},\
{\"start\":2400,\"start_seconds\":2.400000,\"rounds\":1,\"time_seconds\":0.385000,\"sent_bytes\":384,\
\"down_seconds\":0.135000,\"kept\":\"unknown\"}],\
\"best\":{\"start\":0,\"start_seconds\":0.000000,\"rounds\":1,\"time_seconds\":0.385000,\"sent_bytes\":384,\
\"down_seconds\":0.135000,\"kept\":\"no\",\"errors\":{\"sent_bytes\":64,\"time_seconds\":0.054082,\
\"down_seconds\":0.054082}},\
\"worst\":{\"start\":0,\"start_seconds\":0.000000,\"rounds\":1,\"time_seconds\":0.385000,\"sent_bytes\":384,\
\"down_seconds\":0.135000,\"kept\":\"no\"}}\n";

#[test]
fn a_limit_that_no_start_keeps_has_a_status(rt: HostRuntime) {
    let line =
        "json when --clark --link=1KiB --downtime=100ms --reserve=10ms --page=16 --sampled=4/16 --rounds=1 \
         --every=2400";
    assert!(rt; writes(&rt, rt.alloc(), line, 3, DOCUMENT));
}

#[test]
fn no_known_start_has_a_status(rt: HostRuntime) {
    let line =
        "when --clark --link=1KiB --downtime=200ms --reserve=10ms --page=16 --sampled=4/16 --from=2400";
    let end = "worst: none, since no migration ends within the trace; record longer\n";
    assert!(rt; ends_with(&rt, rt.alloc(), line, 4, end));
}

#[test]
fn draws_starts(rt: HostRuntime) {
    let line =
        "when --chart --clark --link=1KiB --downtime=200ms --reserve=10ms --page=16 --sampled=4/16";
    assert!(rt; draws(&rt, rt.alloc(), line));
}

#[test]
fn refuses_starts(rt: HostRuntime) {
    const CASES: [(&str, u8, &str); 3] = [
        (
            "when --link=1KiB --downtime=200ms --reserve=10ms --page=16 --sampled=4/16 --every=0 --to=4",
            2,
            "error: --every is at least 1, and --to is not before --from and below 2^40\n",
        ),
        (
            "when --link=1KiB --downtime=200ms --reserve=10ms --page=16 --sampled=4/16 --from=5 --to=4",
            2,
            "error: --every is at least 1, and --to is not before --from and below 2^40\n",
        ),
        (
            "when --link=1KiB --downtime=200ms --reserve=10ms --page=16 --sampled=4/16 --every=1 --to=4096",
            1,
            "precopy-view: --every: more than 4,096 starts; take a greater one\n",
        ),
    ];
    for &(line, status, fault) in &CASES {
        assert!(rt; fails(&rt, rt.alloc(), 102, line, status, fault), "{line}");
    }
}
