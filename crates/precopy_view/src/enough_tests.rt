//! Worked examples of limits that are not kept. The amounts that are enough come from
//! `python/precopy_dev/models/remedies.py`, which shares no code with the crates.

use crate::tests::ends_with;

/// The first round leaves 2 pages, and the next one would have to send them faster than the link does. From other
/// starts it would not.
const OTHER: &str = "enough: by its plan alone, one of these, changed alone
enough: --link 12Kbit
enough: --downtime 135156us
enough: the guest slowed to 55 per cent of its speed
precopy live --min 8 --max 16 --inc 20 --threshold 2 --rounds 30 --start 0
QEMU: migrate_set_parameter max-bandwidth 1024B
QEMU: migrate_set_parameter downtime-limit 90
libvirt: takes whole MiB a second, and the link has less than one
libvirt: virsh migrate-setmaxdowntime DOMAIN 90
";

const OTHER_DOCUMENT: &str = "\"enough\":{\"answer\":\"other\",\"link_bytes\":1500,\
\"down_seconds\":0.135156,\"guest_percent\":55},\
\"hosts\":{\"bandwidth_bytes\":1024,\"down_milliseconds\":90}}\n";

/// The only round leaves 2 pages, also if the guest is slowed. In 64 ms the link does not send them, and over one that
/// is 64 times as fast they take 2 ms.
const NOTHING: &str = "enough: nothing that was tried
precopy live --min 2 --max 16 --inc 1 --threshold 1 --rounds 1 --start 0
QEMU: migrate_set_parameter max-bandwidth 1024B
QEMU: migrate_set_parameter downtime-limit 1
libvirt: takes whole MiB a second, and the link has less than one
libvirt: virsh migrate-setmaxdowntime DOMAIN 1
";

const NOTHING_DOCUMENT: &str = "\"enough\":{\"answer\":\"nothing\"},\
\"hosts\":{\"bandwidth_bytes\":1024,\"down_milliseconds\":1}}\n";

#[test]
fn a_missed_limit_is_told_what_is_enough(rt: HostRuntime) {
    const CASES: [(&str, u8, &str); 4] = [
        (
            "predict --clark --link=1KiB --page=16 --sampled=4/16 --first=0.512KB --inc=20 --downtime=100ms \
             --reserve=10ms",
            5,
            OTHER,
        ),
        (
            "json predict --clark --link=1KiB --page=16 --sampled=4/16 --first=0.512KB --inc=20 --downtime=100ms \
             --reserve=10ms",
            5,
            OTHER_DOCUMENT,
        ),
        (
            "predict --clark --link=1KiB --page=16 --sampled=4/16 --first=0.128KB --rounds=1 --downtime=1ms \
             --reserve=0us",
            3,
            NOTHING,
        ),
        (
            "json predict --clark --link=1KiB --page=16 --sampled=4/16 --first=0.128KB --rounds=1 --downtime=1ms \
             --reserve=0us",
            3,
            NOTHING_DOCUMENT,
        ),
    ];
    for &(line, status, end) in &CASES {
        assert!(rt; ends_with(&rt, rt.alloc(), line, status, end), "{end}");
    }
}
