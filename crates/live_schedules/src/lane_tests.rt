//! Runs over lanes that are full, or that their receivers empty during the rounds.

use crate::gates::{Counts, SlowFirstReceiver, SlowReceivers, TakenBeside, TakenInTurn};
use crate::tests::{first_sent, has_images, run, run_sixteen, times};
use live_engine::Live;
use rate_limit::Asked;
use worked_guest::{ASKED, MEMORY};

/// Returns the settings of the worked example, with this many streams and lanes of this many frames.
fn asked_with(streams: u64, lane: u64) -> Asked {
    Asked {
        streams,
        lane,
        ..ASKED
    }
}

/// Returns whether both memories are the ones that every run of the worked example makes.
fn has_both_images(live: &Live) -> bool {
    has_images(live, &MEMORY, &MEMORY)
}

/// Returns whether the first round sent these pages, whatever their stamps, and deferred those.
fn begins_with(live: &Live, sent: &[u32], deferred: &[u32]) -> bool {
    match live.rounds.first() {
        Some(round) => {
            round.sent.len() == sent.len()
                && round.deferred.as_slice() == deferred
                && round
                    .sent
                    .iter()
                    .map(|page| page.0)
                    .eq(sent.iter().copied())
        }
        None => false,
    }
}

/// Returns whether the rounds after the first send nothing.
fn sends_no_more(live: &Live) -> bool {
    live.rounds
        .iter()
        .skip(1)
        .all(|round| round.sent.is_empty())
}

#[test]
fn what_a_full_lane_does_not_hold_is_deferred(rt: HostRuntime) {
    let gate = SlowReceivers(Counts::new());
    let live = run(&rt, rt.alloc(), asked_with(1, 1), &gate);
    assert!(rt; (times(&gate.0.late), live.rounds.len()) == (0, 3));
    assert!(rt;
        begins_with(&live, &[0], &[1, 2, 3]) && sends_no_more(&live) && has_both_images(&live)
    );
}

#[test]
fn each_stream_has_a_lane_of_its_own(rt: HostRuntime) {
    let gate = SlowReceivers(Counts::new());
    let live = run(&rt, rt.alloc(), asked_with(2, 1), &gate);
    assert!(rt; (times(&gate.0.late), live.rounds.len()) == (0, 3));
    assert!(rt;
        begins_with(&live, &[0, 1], &[2, 3]) && sends_no_more(&live) && has_both_images(&live)
    );
}

#[test]
fn frames_are_taken_beside_the_rounds(rt: HostRuntime) {
    let gate = TakenBeside(Counts::new());
    let live = run(&rt, rt.alloc(), ASKED, &gate);
    let is_taken = times(&gate.0.taken) >= 1;
    assert!(rt; (times(&gate.0.late), is_taken, has_both_images(&live)) == (0, true, true));
}

/// Returns the first page that a round deferred.
fn first_deferred(live: &Live, number: usize) -> Option<u32> {
    live.rounds.get(number)?.deferred.first().copied()
}

#[test]
fn a_page_whose_turn_meets_a_full_lane_is_deferred(rt: HostRuntime) {
    let gate = SlowFirstReceiver(Counts::new());
    let live = run(&rt, rt.alloc(), asked_with(2, 2), &gate);
    assert!(rt; (times(&gate.0.late), first_deferred(&live, 1)) == (0, Some(0)));
    assert!(rt; begins_with(&live, &[0, 1, 2, 3], &[]) && has_both_images(&live));
}

#[test]
fn a_lane_has_room_again_when_its_frames_were_taken(rt: HostRuntime) {
    let gate = TakenInTurn(Counts::new());
    let live = run(&rt, rt.alloc(), asked_with(1, 1), &gate);
    assert!(rt; (times(&gate.0.late), times(&gate.0.taken)) == (0, times(&gate.0.read)));
    assert!(rt; first_sent(&live, 1) == Some((0, 1)));
    assert!(rt; has_both_images(&live));
}

#[test]
fn sixteen_of_each_over_the_shortest_lanes_make_the_same_memory(rt: HostRuntime) {
    for skip in [false, true] {
        run_sixteen(&rt, rt.alloc(), 300, 1, skip);
    }
}
