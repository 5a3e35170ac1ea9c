//! Answers to questions over a trace, by looks and by rounds. By looks they are what the model
//! `python/precopy_dev/models/looks.py` says, which shares no code with the crate.

use super::plan::guest;
use super::redrawn::WRITES;
use predictions::units::{Limits, Scale};
use predictions::{Answer, Manner, Terms};
use rate_limit::{Asked, Settings};
use std::process::Abort;
use worked_guest::ASKED;

/// Returns what is asked of a link of so many pages per 1,000 ticks. The hypervisor asks each 100 ticks, and the limit
/// is 100 ms, of which 50 ms are reserved.
fn terms(rt: &impl Abort, manner: Manner, max: u64) -> Terms {
    let asked = Asked { max, ..ASKED };
    Terms {
        scale: Scale::new(1000, 4096, 6, 6).expect(rt, "a scale"),
        limits: Limits {
            link: 1,
            first: None,
            downtime: 100_000,
            reserve: 50_000,
        },
        manner,
        settings: Settings::new(asked).expect(rt, "settings"),
    }
}

#[test]
fn answers_by_looks_and_by_rounds(rt: HostRuntime) {
    const LOOKS: Answer = Answer {
        rounds: 4,
        reason: 0,
        stop: 500,
        down: 0,
        total: 10,
        left: 0,
        time: 550_000,
        bytes: 40_960,
        downtime: 50_000,
        recorded: 4_000_000,
        converges: 0,
        kept: 0,
    };
    let rows = [
        (Manner::Looks, 20, LOOKS),
        (
            Manner::Looks,
            3,
            Answer {
                rounds: 2,
                reason: 4,
                stop: 4001,
                down: 1334,
                total: 15,
                left: 4,
                time: 5_385_000,
                bytes: 61_440,
                downtime: 1_384_000,
                converges: 2,
                kept: 2,
                ..LOOKS
            },
        ),
        (
            Manner::Rounds,
            20,
            Answer {
                rounds: 3,
                stop: 5667,
                total: 14,
                time: 5_717_000,
                bytes: 57_344,
                converges: 2,
                kept: 2,
                ..LOOKS
            },
        ),
    ];
    let alloc = rt.alloc();
    let trace = guest(&rt, alloc, 6, &WRITES);
    for &(manner, max, expected) in &rows {
        let terms = terms(&rt, manner, max);
        let found = Answer::of_trace(alloc, &trace, &terms).expect(&rt, "memory");
        assert!(rt; found == expected, "{max}");
    }
}
