//! Worked examples of the ranges over starts. The numbers come from the plans of `redrawn.py` in
//! `python/precopy_dev/models`, those like QEMU's from `looks.py` there, shares of the link from `shares.py`, and what
//! is enough from `remedies.py`, and counts of redraws from `agreements.py`. None of them shares code with the crates.

use crate::tests::writes;

/// From 1200 to 2500 there is a start at each 65th tick. From the first the destination has all, from the last the
/// first round ends after the trace, and from the others one page is sent.
static WARM: &str = "converges: yes, in 20 of 20 redraws and from 20 of 20 starts; rounds: 1
total time: 73 ms
sent: 64 bytes
downtime: 10 ms, limit: 200 ms, kept: yes, in 20 of 20 redraws and from 20 of 20 starts
standard errors: sent 64 bytes, time 52 ms, downtime 0 s
warning: fewer than 100 pages decided the stop; chance moves it
like QEMU: looks 1, time 73 ms, sent 64 bytes, downtime 10 ms, kept
starts: 21, known: 20, converging: 20, limit kept: 20
over known starts: sent 0 bytes to 64 bytes, time 10 ms to 73 ms, downtime 10 ms to 10 ms
share of the link: converges at 50 to 100 per cent
enough: what is asked; by its plan alone also one of these, changed alone
enough: --link 1Kbit
enough: --downtime 10009us
precopy live --min 16 --max 16 --inc 0 --threshold 4 --rounds 30 --start 1250 --base 1200
QEMU: migrate_set_parameter max-bandwidth 1024B
QEMU: migrate_set_parameter downtime-limit 190
libvirt: takes whole MiB a second, and the link has less than one
libvirt: virsh migrate-setmaxdowntime DOMAIN 190
";

#[test]
fn starts_of_a_warm_start_come_after_its_copy(rt: HostRuntime) {
    let line =
        "predict --clark --link=1KiB --downtime=200ms --reserve=10ms --page=16 --sampled=4/16 --base=1200 --start=1250";
    assert!(rt; writes(&rt, rt.alloc(), line, 0, WARM));
}

/// A first round of 4,000 ticks, in a trace of 2,500.
static NONE_KNOWN: &str =
    "converges: unknown, the trace ends before the migration does; record longer
total time: more than 2.500 s
like QEMU: the trace ends first, looks 0, sent 128 bytes, left 256 bytes
enough: unknown, since the trace ends before the migration does
enough: --link 2Kbit
enough: the guest slowed to 65 per cent of its speed
enough to end within the trace: --link 2Kbit
precopy live --min 1 --max 1 --inc 0 --threshold 1 --rounds 30 --start 0
QEMU: migrate_set_parameter max-bandwidth 125B
QEMU: migrate_set_parameter downtime-limit 190
libvirt: takes whole MiB a second, and the link has less than one
libvirt: virsh migrate-setmaxdowntime DOMAIN 190
";

#[test]
fn no_range_is_told_of_no_known_start(rt: HostRuntime) {
    let line =
        "predict --clark --link=1Kbit --downtime=200ms --reserve=10ms --page=16 --sampled=4/16";
    assert!(rt; writes(&rt, rt.alloc(), line, 4, NONE_KNOWN));
}

/// There is a start at each 125th tick. From three of those that are known, pages are left after the only round, and
/// the limit has no time for them.
static MISSED: &str =
    "converges: uncertain, in 0 of 20 redraws and from 16 of 19 starts; all rounds that are allowed \
    are done; rounds: 1
total time: 525 ms
sent: 384 bytes
downtime: 275 ms, limit: 200 ms, kept: uncertain, in 0 of 20 redraws and from 16 of 19 starts
standard errors: sent 64 bytes, time 54 ms, downtime 54 ms
warning: fewer than 100 pages decided the stop; chance moves it
warning: the plan ends with `rounds`, so nothing bounds the downtime; allow more rounds
like QEMU: looks 2, time 525 ms, sent 384 bytes, downtime 150 ms, kept
starts: 21, known: 19, converging: 16, limit kept: 16
over known starts: sent 256 bytes to 384 bytes, time 400 ms to 525 ms, downtime 150 ms to 275 ms
share of the link: does not converge at 50 to 100 per cent
enough: by its plan alone, one of these, changed alone
enough: --link 21Kbit
enough: --downtime 275000us
precopy live --min 16 --max 16 --inc 0 --threshold 1 --rounds 1 --start 0
QEMU: migrate_set_parameter max-bandwidth 1024B
QEMU: migrate_set_parameter downtime-limit 50
libvirt: takes whole MiB a second, and the link has less than one
libvirt: virsh migrate-setmaxdowntime DOMAIN 50
";

#[test]
fn starts_that_miss_the_limit_are_counted(rt: HostRuntime) {
    let line =
        "predict --clark --link=1KiB --downtime=200ms --reserve=150ms --page=16 --sampled=4/16 --rounds=1";
    assert!(rt; writes(&rt, rt.alloc(), line, 5, MISSED));
}
