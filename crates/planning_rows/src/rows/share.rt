//! Shares of a link at which a verdict is the same. The results come from `python/precopy_dev/models/shares.py`, which
//! shares no code with the crate.

use super::plan::guest;
use super::redrawn::WRITES;
use super::remedy::{OLD_ROW, Others, Tried, trial};
use guest_log::Timeline;
use page_bitmap::word_count;
use predictions::Verdict;
use predictions::remedies::Trial;
use predictions::shares::{LinkShare, link_share_of, push_share};
use std::alloc::Global;
use std::process::Abort;
use trace_codec::Trace;

/// What is found: the verdict at all of the link, the least share with it, and the verdict below.
type Found = (Verdict, u64, Option<Verdict>);

fn link_share((verdict, share, below): Found) -> LinkShare {
    LinkShare {
        verdict,
        share,
        below,
    }
}

/// Returns the shares of a trial, in memory that is lent and not empty.
fn lent(rt: &impl Abort, alloc: Global, trace: &Trace, trial: &Trial) -> LinkShare {
    let pages = trace.page_count() as usize;
    let mut marks = Vec::from_elem(alloc, u64::MAX, word_count(pages)).expect(rt, "memory");
    let mut list = Vec::from_elem(alloc, u32::MAX, pages).expect(rt, "memory");
    let mut rows = Vec::from_elem(alloc, OLD_ROW, 64).expect(rt, "memory");
    link_share_of(trace, trial, &mut marks, &mut list, &mut rows)
}

/// Returns the shares of a trial, by both calls.
fn both_shares(rt: &impl Abort, alloc: Global, trace: &Trace, trial: &Trial) -> [LinkShare; 2] {
    let owned = LinkShare::of_trace(alloc, trace, trial).expect(rt, "memory");
    [owned, lent(rt, alloc, trace, trial)]
}

#[test]
fn shares_of_a_link(rt: HostRuntime) {
    const CASES: [(Tried, Found); 11] = [
        // the verdict turns to another one, or the trace ends first
        (
            (333, 6, (350, None), (383_350, 0), Some(2), Others::Skipping),
            (Verdict::Yes, 69, Some(Verdict::No)),
        ),
        (
            (100, 60, (5531, None), (442_883, 0), Some(2), Others::Short),
            (Verdict::Yes, 58, Some(Verdict::Unknown)),
        ),
        // over less of the link it converges, since its rounds end elsewhere
        (
            (1000, 60, (2135, None), (12_544, 0), Some(2), Others::Many),
            (Verdict::No, 98, Some(Verdict::Yes)),
        ),
        // it turns at once
        (
            (333, 60, (2900, None), (103_023, 0), None, Others::Skipping),
            (Verdict::Yes, 100, Some(Verdict::No)),
        ),
        // the first round keeps its rate, down to a link that is as slow
        (
            (
                100,
                60,
                (2950, Some(2403)),
                (327_193, 10_000),
                None,
                Others::AtOnce,
            ),
            (Verdict::Yes, 55, Some(Verdict::No)),
        ),
        (
            (1000, 6, (1100, Some(50)), (3476, 0), None, Others::Skipping),
            (Verdict::No, 92, Some(Verdict::Yes)),
        ),
        // it turns nowhere
        (
            (100, 60, (17_368, None), (472_331, 0), None, Others::Late),
            (Verdict::Yes, 50, None),
        ),
        (
            (
                1000,
                60,
                (1211, Some(50)),
                (268_896, 10_000),
                Some(2),
                Others::Short,
            ),
            (Verdict::No, 50, None),
        ),
        (
            (100, 6, (1214, None), (364_181, 0), Some(2), Others::Latest),
            (Verdict::Unknown, 50, None),
        ),
        // no settings
        (
            (1000, 60, (0, None), (0, 0), None, Others::Worked),
            (Verdict::No, 50, None),
        ),
        (
            (
                1000,
                60,
                (u64::MAX, None),
                (100_000, 0),
                None,
                Others::Worked,
            ),
            (Verdict::No, 50, None),
        ),
    ];
    let alloc = rt.alloc();
    let trace = guest(&rt, alloc, 6, &WRITES);
    for (tried, found) in &CASES {
        let shares = both_shares(&rt, alloc, &trace, &trial(&rt, tried));
        assert!(rt; shares == [link_share(*found); 2], "{shares:?}");
    }
}

#[test]
fn lines_of_shares(rt: HostRuntime) {
    const CASES: [(Found, &str); 5] = [
        (
            (Verdict::Yes, 91, Some(Verdict::No)),
            "share of the link: converges at 91 to 100 per cent; at 90 no\n",
        ),
        (
            (Verdict::No, 98, Some(Verdict::Yes)),
            "share of the link: does not converge at 98 to 100 per cent; at 97 yes\n",
        ),
        (
            (Verdict::Yes, 100, Some(Verdict::Unknown)),
            "share of the link: converges at 100 per cent; at 99 unknown\n",
        ),
        (
            (Verdict::Yes, 50, None),
            "share of the link: converges at 50 to 100 per cent\n",
        ),
        ((Verdict::Unknown, 79, Some(Verdict::No)), ""),
    ];
    for &(found, expected) in &CASES {
        let mut text = Vec::new(rt.alloc());
        push_share(&mut text, &link_share(found)).expect(&rt, "memory");
        assert!(rt; text.as_slice() == expected.as_bytes(), "{expected}");
    }
}
