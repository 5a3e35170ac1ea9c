//! Schedules worked by hand.

use move_schedules::{Move, Placement, ScheduleCost, best_schedule, schedule, schedule_cost};
use std::alloc::Global;
use std::process::Abort;

/// Moves that take these times, each sending ten times as much, in these groups.
fn moves(rt: &impl Abort, alloc: Global, of: &[(u64, Option<u64>)]) -> Vec<Move> {
    let mut moves = Vec::new(alloc);
    for (time, group) in of {
        moves
            .push(Move {
                time: *time,
                bytes: time.saturating_mul(10),
                downtime: *time % 3,
                is_kept: true,
                group: *group,
            })
            .expect(rt, "memory");
    }
    moves
}

/// The slots, starts and ends of some placements.
fn shown(rt: &impl Abort, alloc: Global, placed: &[Placement]) -> Vec<(usize, u128, u128)> {
    let mut shown = Vec::new(alloc);
    for each in placed {
        shown
            .push((each.slot, each.start, each.end))
            .expect(rt, "memory");
    }
    shown
}

/// The example of list scheduling: five moves in two slots take 7, where 6 would do.
#[test]
fn places_each_move_in_the_slot_that_is_free_first(rt: HostRuntime) {
    let alloc = rt.alloc();
    let moves = moves(
        &rt,
        alloc,
        &[(3, None), (3, None), (2, None), (2, None), (2, None)],
    );
    let placed = schedule(alloc, 2, &moves).expect(&rt, "memory");
    let expected = [(0, 0, 3), (1, 0, 3), (0, 3, 5), (1, 3, 5), (0, 5, 7)];
    assert!(rt; shown(&rt, alloc, &placed).as_slice() == expected.as_slice());
    let cost = ScheduleCost {
        is_kept: false,
        time: 7,
        bytes: 120,
        downtime: 2,
    };
    assert!(rt; schedule_cost(&moves, &placed, Some(6)) == cost);
    let kept = ScheduleCost {
        is_kept: true,
        ..cost
    };
    assert!(rt; schedule_cost(&moves, &placed, Some(7)) == kept);
    assert!(rt; schedule_cost(&moves, &placed, None) == kept);
}

/// The second and the third are of one group, so the third waits for the second, and its slot with it.
#[test]
fn keeps_a_slot_waiting_for_a_group(rt: HostRuntime) {
    let alloc = rt.alloc();
    let moves = moves(
        &rt,
        alloc,
        &[(1, None), (4, Some(9)), (2, Some(9)), (3, Some(8))],
    );
    let placed = schedule(alloc, 2, &moves).expect(&rt, "memory");
    let expected = [(0, 0, 1), (1, 0, 4), (0, 4, 6), (1, 4, 7)];
    assert!(rt; shown(&rt, alloc, &placed).as_slice() == expected.as_slice());
}

#[test]
fn chooses_kept_limits_then_time_then_bytes(rt: HostRuntime) {
    let cost = |is_kept: bool, time: u128, bytes: u128| ScheduleCost {
        is_kept,
        time,
        bytes,
        downtime: 0,
    };
    let costs = [
        cost(false, 1, 1),
        cost(true, 9, 4),
        cost(true, 8, 9),
        cost(true, 8, 7),
        cost(true, 8, 7),
    ];
    assert!(rt; best_schedule(&costs) == Some(3));
    assert!(rt; best_schedule(&costs[..2]) == Some(1));
    assert!(rt; best_schedule(&costs[..0]) == None);
}
