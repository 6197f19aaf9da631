// Guests at a limit of a module or of a loop.

use crate::turns::Turn::{Clock, Hint, Steps};
use crate::turns::check;
use std::test::Fail;

/// Imports `now` 63 times and then `emit`, with which `uv_main` emits 7.
const IMPORTS: &str = "010d0360017e017f6000006000017e
    02c20440 63*027576036e6f770002 02757604656d69740000
    03020101
    070b010775765f6d61696e0040
    0a0901070042 07103f1a0b";

#[test]
fn a_guest_of_64_imports_runs(rt: HostRuntime) -> Result<(), Fail> {
    check(&rt, rt.alloc(), IMPORTS, &[Steps(2)], "run Main 0 7; over")
}

/// `uv_main` starts a timer of 50. Its callback emits the moment, and starts it again with the greatest timeout.
const GREATEST: &str = "011d066000017e6000017f60047f7f7e7e017f60017e017f60017f00600000
    023504027576036e6f7700000275760a74696d65725f696e697400010275760b74696d65725f7374617274000202757604656d69740003
    0303020405
    040401700001
    070b010775765f6d61696e0005
    0907010041000b0104
    0a22021200100010031a41004100427f420010021a0b0d00100141004232420010021a0b";

#[test]
fn a_timer_is_due_at_the_greatest_moment_at_most(rt: HostRuntime) -> Result<(), Fail> {
    let turns = [
        Steps(1),
        Clock(50),
        Steps(2),
        Hint,
        Clock(u64::MAX),
        Steps(6),
    ];
    let wanted = "run Main 0; clock 50; Timers 50; run Timer 0 50; hint For(18446744073709551565); \
        clock 18446744073709551615; Idle 50; Poll 50; Check 50; Closing 50; \
        Timers 18446744073709551615; run Timer 0 -1";
    check(&rt, rt.alloc(), GREATEST, &turns, wanted)
}
