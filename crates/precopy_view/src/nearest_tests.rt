//! Worked examples of refused amounts: with a tick of 1 ms and a page of 16 bytes, of which each stands for 4, a page
//! in 1,000 ticks is 64 bytes a second.

use crate::tests::fails;

#[test]
fn a_refusal_names_the_nearest_amount(rt: HostRuntime) {
    const CASES: [(&str, &str); 7] = [
        (
            "predict --page=16 --sampled=4/16 --tick=2s --link=1KiB --downtime=1s",
            "precopy-view: --tick 2s: a tick is 1us to 1s; the nearest is 1s\n",
        ),
        (
            "predict --page=16 --sampled=4/16 --tick=0.5us --link=1KiB --downtime=1s",
            "precopy-view: --tick 0us: a tick is 1us to 1s; the nearest is 1us\n",
        ),
        (
            "predict --page=16 --sampled=4/16 --tick=1ms --link=0.063KB --downtime=0s",
            "precopy-view: --link 0.063KB: not 1 to 1,000,000 pages per 1,000 ticks; the nearest is 0.064KB\n",
        ),
        (
            "predict --page=16 --sampled=4/16 --tick=1ms --link=64.001MB --downtime=0s",
            "precopy-view: --link 512008Kbit: not 1 to 1,000,000 pages per 1,000 ticks; the nearest is 64000.063KB\n",
        ),
        (
            "predict --page=16 --sampled=4/16 --first=2KiB --link=1KiB --downtime=0s",
            "precopy-view: --first 2.048KB: not 1 page per 1,000 ticks to --link; the nearest is 1.087KB\n",
        ),
        (
            "predict --page=16 --sampled=4/16 --reserve=201ms --link=1KiB --downtime=0.2s",
            "precopy-view: --reserve 201ms: longer than --downtime; the most is 200ms\n",
        ),
        (
            "predict --page=16 --sampled=4/16 --reserve=10ms --link=1KiB --downtime=2h",
            "precopy-view: --downtime 7200s: more than 65,535 pages go over the link; the most is 4096009999us\n",
        ),
    ];
    for &(line, fault) in &CASES {
        assert!(rt; fails(&rt, rt.alloc(), 102, line, 2, fault), "{fault}");
    }
}

#[test]
fn a_refused_scale_names_the_nearest(rt: HostRuntime) {
    const CASES: [(&str, &str); 4] = [
        (
            "show --page=15",
            "precopy-view: --page 15: a page has 16 to 4,096 bytes; the nearest is 16\n",
        ),
        (
            "show --page=4097",
            "precopy-view: --page 4097: a page has 16 to 4,096 bytes; the nearest is 4096\n",
        ),
        (
            "show --sampled=5/4",
            "precopy-view: --sampled 5/4: 1 to P of P pages, P at most 2^32; the nearest is 4/4\n",
        ),
        (
            "show --sampled=0/0",
            "precopy-view: --sampled 0/0: 1 to P of P pages, P at most 2^32; the nearest is 1/1\n",
        ),
    ];
    for &(line, fault) in &CASES {
        assert!(rt; fails(&rt, rt.alloc(), 102, line, 2, fault), "{fault}");
    }
}
