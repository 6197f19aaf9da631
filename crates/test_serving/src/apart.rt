// What threads show of a guest that no list of a world's steps shows.

ghost use Rattle.std.specs.Prelude.{◌≡◌};

use crate::serving::{ample, served};
use crate::showing::shows;
use serve::LoopEnding;
use std::sync::Wait;
use std::test::Fail;
use std::thread::Threads;

/// `uv_main` asks for work three times and starts a timer, whose callback emits what a cancel of the second request is
/// answered, takes its time, and emits what a cancel of the third is answered. An after-work callback emits a hundred
/// times its request and the kind that it is given. With one worker no list of a world's steps gives 0 and then -16: the
/// worker would drop the second job and start the third within the timer's callback, which is one step.
const CANCELS_APART: &str = "0061736d 01000000
    012b086000017f60047f7f7e7e017f60037f7f7f017f60017f017f60017e017f60017f0060000060037f7f7f00
    0248050275760a74696d65725f696e697400000275760b74696d65725f737461727400010275760a71756575655f776f726b00020275760663616e63656c000302757604656d69740004
    030706050505060307
    040401700001
    0503010001
    0725030775765f6d61696e00080775765f776f726b00090d75765f61667465725f776f726b000a
    0907010041000b0107
    0a6d06
      0e000340200041016b22000d000b0b
      0a0020001003ac10041a0b
      0f004102100641f02e1005410310060b
      2701017f034041004100410010021a200041016a22004103490d000b100041004200420010011a0b
      090041d00f100541000b
      0f00200041e4006c20016aad10041a0b";

/// -16, which a cancel of a started or an answered request is answered.
const BUSY: u64 = 0xffff_ffff_ffff_fff0;

/// How often the guest is served.
const TIMES: u32 = 8;

/// What the after-work callback of a request whose cancel was answered so emits, if it hears of a cancellation exactly
/// where that answer is 0.
fn told(request: u64, answer: u64) -> u64 {
    if answer == 0 {
        request.saturating_mul(100).saturating_add(5)
    } else {
        request.saturating_mul(100)
    }
}

fn times(value: u64, emits: &[u64]) -> usize {
    emits.iter().filter(|emitted| **emitted == value).count()
}

fn is_answer(answer: u64) -> bool {
    answer == 0 || answer == BUSY
}

/// What may be emitted: each cancel is answered 0 or -16, and then each request has one after-work callback, which is
/// told of a cancellation exactly where the request's cancel was answered 0.
fn may_emit(emits: &[u64]) -> bool {
    if emits.len() != 5 {
        return false;
    }
    let (second, third, behind) = (emits[0], emits[1], &emits[2..]);
    is_answer(second)
        && is_answer(third)
        && times(told(1, BUSY), behind) == 1
        && times(told(2, second), behind) == 1
        && times(told(3, third), behind) == 1
}

/// Whether one loop with one worker did what it may, each time that it was served.
fn keeps_the_law<R: Threads + Wait + Sync + AllocGlobal>(rt: &R) -> Result<bool, Fail> {
    for _ in 0..TIMES {
        let all = served(rt, CANCELS_APART, ample(1, 1))?;
        for one in all.as_slice() {
            if one.ending != LoopEnding::Over || !may_emit(one.emits.as_slice()) {
                return Ok(false);
            }
        }
    }
    Ok(true)
}

#[test]
fn cancels_of_one_callback_are_answered_apart(rt: HostRuntime) -> Result<(), Fail> {
    let kept = keeps_the_law(&rt)?;
    shows(&rt, kept, true);
    Ok(())
}
