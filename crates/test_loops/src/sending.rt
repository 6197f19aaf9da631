// Sends to asyncs of a loop over a desk.

use crate::turns::Turn::{Send, Steps};
use crate::turns::check;
use std::test::Fail;

/// `uv_main` makes async 0, closes its handle, and starts check handle 1.
pub const CLOSES: &str = "011c0660017f017f60027f7f017f6000017f60017e017f60000060017f00
    0257060275760a6173796e635f696e6974000002757605636c6f736500010275760a6173796e635f73656e6400000275760a636865636b5f696e697400020275760b636865636b5f7374617274000102757604656d69740003
    03050404050505
    040401700003
    070b010775765f6d61696e0006
    0909010041000b03070809
    0a27041c01017f41001000220041011001ac10051a100341021004ac10051a0b02000b02000b02000b";

#[test]
fn a_send_to_a_closed_async_is_taken_in_and_runs_nothing(rt: HostRuntime) -> Result<(), Fail> {
    let wanted =
        "run Main 0 0 0; send true; Timers 0; Idle 0; Poll 0; Check 0; run Check 1; Closing 0; run Close 0; \
        send true; Timers 0; Idle 0; Poll 0; Check 0; run Check 1";
    check(
        &rt,
        rt.alloc(),
        CLOSES,
        &[Steps(1), Send(0), Steps(7), Send(0), Steps(5)],
        wanted,
    )
}

/// `uv_main` makes an async, and then traps.
pub const FAILS: &str = "010d0360017f017f60000060017f00
    0211010275760a6173796e635f696e69740000
    0303020102
    040401700001
    070b010775765f6d61696e0001
    0907010041000b0102
    0a0d020800410010001a000b02000b";

#[test]
fn a_send_to_a_failed_loop_is_taken_in(rt: HostRuntime) -> Result<(), Fail> {
    let wanted = "run Main 0 trap; send true; failed";
    check(
        &rt,
        rt.alloc(),
        FAILS,
        &[Steps(1), Send(0), Steps(1)],
        wanted,
    )
}

/// `uv_main` makes async 0 with handle 0 and starts timer 1 of 0, whose callback sends to that async. The async's callback
/// emits its handle.
pub const SENDS: &str = "011e0660017f017f6000017f60047f7f7e7e017f60017e017f60000060017f00
    024c050275760a6173796e635f696e697400000275760a6173796e635f73656e6400000275760a74696d65725f696e697400010275760b74696d65725f7374617274000202757604656d69740003
    030403040505
    040401700002
    0606017f0141000b
    070b010775765f6d61696e0005
    0908010041000b020607
    0a2c03160041011000240010024100420042001003ac10041a0b0a0023001001ac10041a0b08002000ac10041a0b";

#[test]
fn what_a_timer_sends_is_taken_in_the_next_poll(rt: HostRuntime) -> Result<(), Fail> {
    let wanted = "run Main 0 0; Timers 0; run Timer 1 0; Idle 0; Poll 0; run Async 0 0; Check 0";
    check(&rt, rt.alloc(), SENDS, &[Steps(7)], wanted)
}
