// What a loop answers to a cancel, by how far the request has come.

use crate::replying::ASKS;
use crate::turns::Turn::{Answer, Cancel, NoOrder, Order, Start, Steps};
use crate::turns::check;
use std::test::Fail;

#[test]
fn a_request_that_is_not_handed_out_is_cancelled(rt: HostRuntime) -> Result<(), Fail> {
    let turns = [
        Steps(1),
        Cancel(1),
        NoOrder,
        Cancel(1),
        Steps(4),
        Cancel(1),
        Steps(3),
    ];
    let wanted =
        "run Main 0 1; cancel 0; no order; cancel -22; Timers 0; Idle 0; Poll 0; run After 1 5 -125; \
        cancel -22; Check 0; Closing 0; over";
    check(&rt, rt.alloc(), ASKS, &turns, wanted)
}

#[test]
fn a_request_that_no_worker_started_is_cancelled(rt: HostRuntime) -> Result<(), Fail> {
    let turns = [
        Steps(1),
        Order,
        Cancel(1),
        Cancel(1),
        Start,
        Answer,
        Steps(4),
        Answer,
        Steps(3),
    ];
    let wanted =
        "run Main 0 1; cancel 0; cancel -22; start false; stranger; Timers 0; Idle 0; Poll 0; \
        run After 1 5 -125; stranger; Check 0; Closing 0; over";
    check(&rt, rt.alloc(), ASKS, &turns, wanted)
}

#[test]
fn a_request_that_a_worker_started_is_busy_until_its_callback(rt: HostRuntime) -> Result<(), Fail> {
    let turns = [
        Steps(1),
        Order,
        Start,
        Cancel(1),
        Answer,
        Cancel(1),
        Steps(4),
        Cancel(1),
        Steps(3),
    ];
    let wanted =
        "run Main 0 1; start true; cancel -16; accepted; cancel -16; Timers 0; Idle 0; Poll 0; run After 1 0 6; \
        cancel -22; Check 0; Closing 0; over";
    check(&rt, rt.alloc(), ASKS, &turns, wanted)
}

#[test]
fn a_request_that_was_never_made_is_not_there(rt: HostRuntime) -> Result<(), Fail> {
    let turns = [Cancel(1), Steps(1), Cancel(0), Cancel(2)];
    let wanted = "cancel -22; run Main 0 1; cancel -22; cancel -22";
    check(&rt, rt.alloc(), ASKS, &turns, wanted)
}
