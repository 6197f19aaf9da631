// When timers run.

use crate::turns::Turn::{Clock, Hint, Steps};
use crate::turns::check;
use std::test::Fail;

/// `uv_main` starts a timer of 50. Its callback emits the moment.
const ONCE: &str = "011d066000017e6000017f60047f7f7e7e017f60017e017f60017f00600000
    023504027576036e6f7700000275760a74696d65725f696e697400010275760b74696d65725f7374617274000202757604656d69740003
    0303020405
    040401700001
    070b010775765f6d61696e0005
    0907010041000b0104
    0a17020700100010031a0b0d00100141004232420010021a0b";

#[test]
fn a_timer_runs_once_it_is_due(rt: HostRuntime) -> Result<(), Fail> {
    let wanted =
        "run Main 0; hint For(50); clock 50; Timers 50; run Timer 0 50; Idle 50; Poll 50; Check 50; \
        Closing 50; over";
    check(
        &rt,
        rt.alloc(),
        ONCE,
        &[Steps(1), Hint, Clock(50), Steps(7)],
        wanted,
    )
}

/// `uv_main` starts timer 0 of 10, whose callback starts timers 1 and 2, of 5 and then each 20. Timer 1's callback stops it,
/// asks whether it is active, starts it again and asks once more. Timer 2's callback asks whether it is active.
const REPEATS: &str = "011e066000017f60047f7f7e7e017f60017f017f60017e017f60000060017f00
    025c060275760a74696d65725f696e697400000275760b74696d65725f737461727400010275760a74696d65725f73746f7000020275760b74696d65725f616761696e00020275760969735f616374697665000202757604656d69740003
    03050404050505
    040401700003
    070b010775765f6d61696e0006
    0909010041000b03070809
    0a5f04100010004100420a42001001ac10051a0b1e0010004101420542141001ac10051a10004102420542141001ac10051a0b220020001002ac10051a20001004ac10051a20001003ac10051a20001004ac10051a0b0a0020001004ac10051a0b";

#[test]
fn a_repeat_counts_from_the_moment_of_the_run(rt: HostRuntime) -> Result<(), Fail> {
    let turns = [
        Steps(1),
        Clock(10),
        Steps(6),
        Hint,
        Clock(100),
        Steps(7),
        Hint,
        Clock(119),
        Steps(5),
        Hint,
        Clock(120),
        Steps(4),
    ];
    let wanted =
        "run Main 0 0; clock 10; Timers 10; run Timer 0 0 0; Idle 10; Poll 10; Check 10; Closing 10; \
        hint For(5); clock 100; Timers 100; run Timer 1 0 0 0 1; run Timer 2 1; Idle 100; Poll 100; \
        Check 100; Closing 100; hint For(20); clock 119; Timers 119; Idle 119; Poll 119; Check 119; \
        Closing 119; hint For(1); clock 120; Timers 120; run Timer 1 0 0 0 1; run Timer 2 1; Idle 120";
    check(&rt, rt.alloc(), REPEATS, &turns, wanted)
}

/// `uv_main` starts a timer again that was never started, starts it with no repeat, asks whether it is active, starts it
/// again and asks once more.
const AGAIN: &str = "011e066000017f60047f7f7e7e017f60017f017f60017e017f60000060017f00
    024c050275760a74696d65725f696e697400000275760b74696d65725f737461727400010275760b74696d65725f616761696e00020275760969735f616374697665000202757604656d69740003
    0303020405
    040401700001
    070b010775765f6d61696e0005
    0907010041000b0106
    0a39023401017f100022001002ac10041a20004100420542001001ac10041a20001003ac10041a20001002ac10041a20001003ac10041a0b02000b";

#[test]
fn a_timer_with_no_repeat_is_stopped_by_a_start_again(rt: HostRuntime) -> Result<(), Fail> {
    let wanted = "run Main 0 -22 0 1 0 0; over";
    check(&rt, rt.alloc(), AGAIN, &[Steps(2)], wanted)
}

/// `uv_main` makes two timers and starts timer 0 of 0. Its callback starts timer 1 of 0.
const STARTS_TIMER: &str = "0119056000017f60047f7f7e7e017f60017e017f60000060017f00
    022c030275760a74696d65725f696e697400000275760b74696d65725f7374617274000102757604656d69740002
    030403030404
    040401700002
    0606017f0141000b
    070b010775765f6d61696e0003
    0908010041000b020405
    0a2a03140010004100420042001001ac10021a100024000b100023004101420042001001ac10021a0b02000b";

#[test]
fn a_timer_that_a_timer_starts_waits_for_the_next_timers_phase(
    rt: HostRuntime,
) -> Result<(), Fail> {
    let wanted =
        "run Main 0 0; Timers 0; run Timer 0 0; Idle 0; Poll 0; Check 0; Closing 0; Timers 0; run Timer 1; \
        Idle 0";
    check(&rt, rt.alloc(), STARTS_TIMER, &[Steps(10)], wanted)
}
