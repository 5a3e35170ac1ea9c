//! Worked examples of migrations by a hypervisor's looks. The numbers come from `courses.py` in
//! `python/precopy_dev/models`, counts of redraws and starts from `agreements.py` there, shares of the link from
//! `shares.py`, and what is enough from `remedies.py`. None of them shares code with the crates.

use crate::tests::{draws, writes};

// The limits below: a link of 64 pages of the guest in 1,000 ticks, and a guest of which one page in four was recorded.

/// In each window of 100 ticks one page goes. At the first look 4 pages are left, since the one that went is written
/// again, and at the second 3, which the limit has time for.
static PREDICTION: &str = "converges: yes, in 20 of 20 redraws and from 20 of 20 starts; looks: 2
total time: 398 ms
sent: 320 bytes
downtime: 198 ms, limit: 200 ms, kept: yes, in 20 of 20 redraws and from 20 of 20 starts
standard errors: sent 32 bytes, time 40 ms, downtime 0 s
warning: fewer than 100 pages decided the stop; chance moves it
starts: 21, known: 20, converging: 20, limit kept: 20
over known starts: sent 256 bytes to 320 bytes, time 298 ms to 398 ms, downtime 198 ms to 198 ms
share of the link: converges at 50 to 100 per cent
enough: what is asked; by its plan alone also one of these, changed alone
enough: --link 2Kbit
enough: --downtime 10009us
QEMU: migrate_set_parameter max-bandwidth 1024B
QEMU: migrate_set_parameter downtime-limit 190
libvirt: takes whole MiB a second, and the link has less than one
libvirt: virsh migrate-setmaxdowntime DOMAIN 190
";

/// The same as a document.
static PREDICTED: &str =
    "{\"units\":{\"tick_seconds\":0.001000,\"page_bytes\":16,\"sampled_pages\":4,\
\"guest_pages\":16},\"limits\":{\"link_bytes\":1024,\"down_seconds\":0.200000,\"reserve_seconds\":0.010000},\
\"settings\":{\"min\":16,\"max\":16,\"inc\":0,\"threshold\":4,\"limit\":30,\"skip\":false,\"start\":0},\
\"plan\":\"looks\",\"converges\":\"yes\",\"kept\":\"yes\",\"recorded_seconds\":2.500000,\
\"migration\":{\"why\":\"few\",\"looks\":2,\"time_seconds\":0.398000,\"sent_bytes\":320,\
\"down_seconds\":0.198000,\"left_pages\":3,\"errors\":{\"sent_bytes\":32,\
\"time_seconds\":0.040718,\"down_seconds\":0.000000}},\
\"redraws\":{\"count\":20,\"known\":20,\"converging\":20,\"kept\":20},\
\"starts\":{\"count\":21,\"known\":20,\"converging\":20,\"kept\":20,\
\"least\":{\"time_seconds\":0.298000,\"sent_bytes\":256,\"down_seconds\":0.198000},\
\"greatest\":{\"time_seconds\":0.398000,\"sent_bytes\":320,\"down_seconds\":0.198000}},\
\"link_shares\":{\"converges\":\"yes\",\"percent\":50},\
\"enough\":{\"answer\":\"asked\",\"link_bytes\":250,\"down_seconds\":0.010009},\
\"hosts\":{\"bandwidth_bytes\":1024,\"down_milliseconds\":190}}\n";

#[test]
fn predicts_by_looks(rt: HostRuntime) {
    let line = "predict --link=1KiB --downtime=200ms --reserve=10ms --page=16 --sampled=4/16";
    assert!(rt; writes(&rt, rt.alloc(), line, 0, PREDICTION));
    let line = "json predict --link=1KiB --downtime=200ms --reserve=10ms --page=16 --sampled=4/16";
    assert!(rt; writes(&rt, rt.alloc(), line, 0, PREDICTED));
}

/// A first list of 4,000 ticks, in a trace of 2,500.
static UNKNOWN: &str = "converges: unknown, the trace ends before the migration does; record longer
total time: more than 2.500 s
like QEMU: the trace ends first, looks 0, sent 128 bytes, left 256 bytes
enough: unknown, since the trace ends before the migration does
enough: --link 2Kbit
enough: --downtime 3012500us
enough: the guest slowed to 65 per cent of its speed
enough to end within the trace: --link 2Kbit
QEMU: migrate_set_parameter max-bandwidth 125B
QEMU: migrate_set_parameter downtime-limit 190
libvirt: takes whole MiB a second, and the link has less than one
libvirt: virsh migrate-setmaxdowntime DOMAIN 190
";

#[test]
fn a_trace_that_ends_before_the_looks_has_a_status(rt: HostRuntime) {
    let line = "predict --link=1Kbit --downtime=200ms --reserve=10ms --page=16 --sampled=4/16";
    assert!(rt; writes(&rt, rt.alloc(), line, 4, UNKNOWN));
}

/// Only from 0 on is a page written again before the first look. A start at 2400 ends with the last tick of the trace.
static STARTS: &str = "          tick         start          time          sent      downtime
             0       0.000 s        398 ms     320 bytes        198 ms  kept
           800       0.800 s        298 ms     256 bytes        198 ms  kept
          1600       1.600 s        298 ms     256 bytes        198 ms  kept
          2400       2.400 s        298 ms     256 bytes        198 ms  kept
best:  0.800 s, --start 800: time 298 ms, sent 256 bytes, downtime 198 ms +- 0 s, kept
worst: 0.000 s, --start 0: time 398 ms, sent 320 bytes, downtime 198 ms, kept
";

#[test]
fn tells_when_to_migrate_by_looks(rt: HostRuntime) {
    let line =
        "when --link=1KiB --downtime=200ms --reserve=10ms --page=16 --sampled=4/16 --every=800 --to=2400";
    assert!(rt; writes(&rt, rt.alloc(), line, 0, STARTS));
}

/// Two starts as a document. A downtime of 100 ms has time for one page, and the trace ends in the list that begins at
/// 2400.
static DOCUMENT: &str = "{\"limit_seconds\":0.100000,\"plan\":\"looks\",\"starts\":[\
{\"start\":0,\"start_seconds\":0.000000,\"looks\":2,\"time_seconds\":0.398000,\"sent_bytes\":384,\
\"down_seconds\":0.010000,\"kept\":\"yes\"},\
{\"start\":2400,\"start_seconds\":2.400000,\"looks\":0,\"time_seconds\":0.299000,\"sent_bytes\":256,\
\"down_seconds\":0.198000,\"kept\":\"unknown\"}],\
\"best\":{\"start\":0,\"start_seconds\":0.000000,\"looks\":2,\"time_seconds\":0.398000,\"sent_bytes\":384,\
\"down_seconds\":0.010000,\"kept\":\"yes\",\"errors\":{\"sent_bytes\":48,\"time_seconds\":0.044482,\
\"down_seconds\":0.027989}},\
\"worst\":{\"start\":0,\"start_seconds\":0.000000,\"looks\":2,\"time_seconds\":0.398000,\"sent_bytes\":384,\
\"down_seconds\":0.010000,\"kept\":\"yes\"}}\n";

#[test]
fn tells_starts_by_looks_as_a_document(rt: HostRuntime) {
    let line =
        "json when --link=1KiB --downtime=100ms --reserve=10ms --page=16 --sampled=4/16 --every=2400";
    assert!(rt; writes(&rt, rt.alloc(), line, 0, DOCUMENT));
}

#[test]
fn draws_starts_by_looks(rt: HostRuntime) {
    let line = "when --chart --link=1KiB --downtime=200ms --reserve=10ms --page=16 --sampled=4/16";
    assert!(rt; draws(&rt, rt.alloc(), line));
}
