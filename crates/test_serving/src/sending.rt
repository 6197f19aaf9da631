// Loops in threads that send to themselves.

use crate::serving::{ample, check};
use std::test::Fail;

/// An async whose callback sends to it again, three times in all, and emits how many there were.
const SENDS: &str = "0061736d 01000000
    01120460017f017f60017e017f60000060017f00
    022b030275760a6173796e635f696e697400000275760a6173796e635f73656e64000002757604656d69740001
    0303020302
    040401700001
    0606017f0141000b
    070b010775765f6d61696e0004
    0907010041000b0103
    0a28021c00230041016a24002300ad10021a23004103490440200010011a0b0b09004100100010011a0b";

/// A timer of 50, and an async whose callback sends to it again and then, the second time, starts a timer of 1. Both timers
/// emit the moment.
const STARTS: &str = "0061736d 01000000
    0122076000017f60047f7f7e7e017f60017f017f6000017e60017e017f60000060017f00
    025506
      0275760a74696d65725f696e69740000 0275760b74696d65725f73746172740001 0275760a6173796e635f696e69740002 0275760a6173796e635f73656e640002
      027576036e6f770003 02757604656d69740004
    030403060605
    040401700002
    0606017f0141000b
    070b010775765f6d61696e0008
    0908010041000b020607
    0a3b030700100410051a0b1c0023000440100041004201420010011a0541012400200010031a0b0b1400100041004232420010011a4101100210031a0b";

#[test]
fn each_send_of_its_own_is_seen(rt: HostRuntime) -> Result<(), Fail> {
    check(&rt, SENDS, ample(1, 1), "loop 0 waiting emits 1 2 3\n")
}

#[test]
fn the_clock_stands_while_an_async_is_due(rt: HostRuntime) -> Result<(), Fail> {
    check(&rt, STARTS, ample(1, 1), "loop 0 waiting emits 1 50\n")
}
