// Which replies a loop takes.

use crate::turns::Field::{Bytes, Depth, Fuel, LoopNo, Module, Operation, Request, Slot};
use crate::turns::Turn::{Answer, AnswerOther, Hint, Order, Steps};
use crate::turns::{Field, Turn, check, told};
use std::alloc::Global;
use std::process::Abort;
use std::test::Fail;

/// `uv_main` asks for work by operation 5 on three bytes. `uv_work` gives its operation and one more, `uv_after_work` emits
/// kind and code.
pub const ASKS: &str = "011b0560037f7f7f017f60017e017f60000060017f017f60037f7f7f00
    021b020275760a71756575655f776f726b000002757604656d69740001
    030403020304
    0503010001
    0725030775765f6d61696e00020775765f776f726b00030d75765f61667465725f776f726b0004
    0a27030e004105410041031000ac10011a0b0700200041016a0b0e002001ac10011a2002ac10011a0b
    0b09010041000b03616263";

#[test]
fn a_reply_of_another_operation_is_a_stranger_and_the_right_one_is_taken_once(
    rt: HostRuntime,
) -> Result<(), Fail> {
    let turns = [
        Steps(1),
        Order,
        AnswerOther(Operation),
        Hint,
        Answer,
        Hint,
        Answer,
        Steps(4),
        Answer,
        Steps(3),
    ];
    let wanted =
        "run Main 0 1; stranger; hint Forever; accepted; hint Now; stranger; Timers 0; Idle 0; Poll 0; \
        run After 1 0 6; stranger; Check 0; Closing 0; over";
    check(&rt, rt.alloc(), ASKS, &turns, wanted)
}

/// What the loop does after `uv_main`, where nobody offers it a reply of another order.
const WITHOUT: &str =
    "hint Forever; Timers 0; Idle 0; Poll 0; Check 0; Closing 0; Timers 0; accepted; hint Now; Idle 0; \
        Poll 0; run After 1 0 6; Check 0; Closing 0; over; over";

const FIELDS: [Field; 8] = [LoopNo, Request, Slot, Module, Operation, Bytes, Fuel, Depth];

fn goes_on(rt: &impl Abort, told: &str, front: &str) {
    assert_eq!(rt; told.strip_prefix(front), Some(WITHOUT));
}

fn check_behind(rt: &impl Abort, alloc: Global, turns: &[Turn], front: &str) -> Result<(), Fail> {
    let told = told(alloc, ASKS, turns)?;
    goes_on(rt, told.as_str(), front);
    Ok(())
}

/// What the loop does where it is offered a reply that differs in this field.
fn check_field(rt: &impl Abort, alloc: Global, field: Field) -> Result<(), Fail> {
    let turns = [
        Steps(1),
        Order,
        AnswerOther(field),
        Hint,
        Steps(6),
        Answer,
        Hint,
        Steps(7),
    ];
    check_behind(rt, alloc, &turns, "run Main 0 1; stranger; ")
}

#[test]
fn a_reply_that_differs_in_one_field_changes_nothing(rt: HostRuntime) -> Result<(), Fail> {
    for field in FIELDS {
        check_field(&rt, rt.alloc(), field)?;
    }
    Ok(())
}

#[test]
fn the_same_steps_without_that_reply(rt: HostRuntime) -> Result<(), Fail> {
    let turns = [Steps(1), Order, Hint, Steps(6), Answer, Hint, Steps(7)];
    check_behind(&rt, rt.alloc(), &turns, "run Main 0 1; ")
}
