// Which handles there are, and which of them a phase runs.

use crate::turns::Turn::Steps;
use crate::turns::check;
use std::test::Fail;

/// `uv_main` makes 64 timers, asks for one more, closes timer 0 and asks again. The callback of the close asks whether that
/// timer is active, then whether one that it makes is, and asks for one more.
const HANDLES: &str = "011c066000017f60027f7f017f60017f017f60017e017f60000060017f00
    0235040275760a74696d65725f696e6974000002757605636c6f736500010275760969735f616374697665000202757604656d69740003
    0303020405
    040401700001
    070b010775765f6d61696e0004
    0907010041000b0105
    0a4b023001027f10002100034010001a200141016a2201413f490d000b1000ac10031a200041001001ac10031a1000ac10031a0b180020001002ac10031a10001002ac10031a1000ac10031a0b";

#[test]
fn there_is_room_for_a_handle_once_one_is_closed(rt: HostRuntime) -> Result<(), Fail> {
    let wanted =
        "run Main 0 -11 0 -11; Timers 0; Idle 0; Poll 0; Check 0; Closing 0; run Close 0 -22 0 -11; over";
    check(&rt, rt.alloc(), HANDLES, &[Steps(8)], wanted)
}

/// `uv_main` makes idle handle 0 and starts check handle 1, whose callback starts the idle handle and stops its own. The
/// idle handle's callback stops its own too.
const STARTS_IDLE: &str = "011c066000017f60027f7f017f60017f017f60017e017f60000060017f00
    026a07
      0275760a636865636b5f696e697400000275760969646c655f696e697400000275760b636865636b5f737461727400010275760a69646c655f73746172740001
      0275760969646c655f73746f7000020275760a636865636b5f73746f70000202757604656d69740003
    030403040505
    040401700002
    0606017f0141000b
    070b010775765f6d61696e0007
    0908010041000b020809
    0a3203100010012400100041001002ac10061a0b1400230041011003ac10061a20001005ac10061a0b0a0020001004ac10061a0b";

#[test]
fn an_idle_handle_that_a_check_handle_starts_runs_in_the_next_iteration(
    rt: HostRuntime,
) -> Result<(), Fail> {
    let wanted =
        "run Main 0 0; Timers 0; Idle 0; Poll 0; Check 0; run Check 1 0 0; Closing 0; Timers 0; Idle 0; \
        run Idle 0 0; Poll 0; Check 0; Closing 0; over";
    check(&rt, rt.alloc(), STARTS_IDLE, &[Steps(14)], wanted)
}
