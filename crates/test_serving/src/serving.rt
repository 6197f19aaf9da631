// Loops that are served in threads.

ghost use Rattle.std.specs.Prelude.{◌≡◌, ◌≤◌};
ghost use Rattle.board.specs.Jobs.{ticket_of};

use crate::meeting::Meeting;
use crate::showing::{check_told, shows};
use board::JobBox;
use events::settings::LoopSettings;
use limits::{MAX_LOOPS, MAX_WORKERS};
use order::Reply;
use serve::{Served, Serving, Task, serve};
use std::alloc::{AllocError, Global};
use std::fmt::Write;
use std::process::Abort;
use std::sync::Wait;
use std::test::Fail;
use std::thread::Threads;
use test_fixtures::linked_of;

/// Starts a timer of 50, whose callback emits the moment.
const TIMER: &str = "0061736d 01000000
    011d066000017e6000017f60047f7f7e7e017f60017e017f60017f00600000
    023504027576036e6f7700000275760a74696d65725f696e697400010275760b74696d65725f7374617274000202757604656d69740003
    0303020405
    040401700004
    070b010775765f6d61696e0005
    0907010041000b0104
    0a17020700100010031a0b0d00100141004232420010021a0b";

/// Calls itself for ever.
const CALLS_ITSELF: &str =
    "0061736d0100000001040160000003020100070b010775765f6d61696e00000a0601040010000b";

/// Asks for one piece of work, operation 5; its work function adds 1, and the callback emits the result.
pub const ASKS_ONCE: &str = "0061736d 01000000
    011b0560037f7f7f017f60017e017f60000060017f017f60037f7f7f00
    021b020275760a71756575655f776f726b000002757604656d69740001
    030403020304
    0725030775765f6d61696e00020775765f776f726b00030d75765f61667465725f776f726b0004
    0a1e030b0041054100410010001a0b0700200041016a0b08002002ac10011a0b";

/// Asks for the operations 0 to 31; its work function doubles, and the last callback emits the sum of the results.
pub const ASKS: &str = "0061736d 01000000
    011b0560037f7f7f017f60017e017f60000060017f017f60037f7f7f00
    021b020275760a71756575655f776f726b000002757604656d69740001
    030403020304
    0503010001
    0610037f0141000b7f0141000b7f0141000b
    0725030775765f6d61696e00020775765f776f726b00030d75765f61667465725f776f726b0004
    0a45031c00034023004100410010001a230041016a240023004120490d000b0b0700200020006a0b1e00230220026a2402230141016a2401230141204604402302ad10011a0b0b";

/// A timer of 5, repeated each 10, emits the moment, and is stopped in its third callback.
pub const TICKS: &str = "0061736d 01000000
    0122076000017f60047f7f7e7e017f60017e017f60017f006000006000017e60017f017f
    0245050275760a74696d65725f696e697400000275760b74696d65725f7374617274000102757604656d69740002027576036e6f7700050275760a74696d65725f73746f700006
    0303020304
    040401700001
    0606017f0141000b
    070b010775765f6d61696e0006
    0907010041000b0105
    0a2b021b00100310021a230041016a240023004103460440200010041a0b0b0d00100041004205420a10011a0b";

/// Makes an async to which nobody sends, and whose callback emits 7.
const WAITS: &str = "0061736d01000000 01120460017f017f60017e017f60000060017f00
    021b020275760a6173796e635f696e6974000002757604656d69740001
    0303020203040401700001070b010775765f6d61696e00020907010041000b01030a11020700410010001a0b0700420710011a0b";

/// An idle callback that counts its runs, and emits the count from 99,998 on.
const COUNTS: &str = "0061736d 01000000
    0117056000017f60027f7f017f60017e017f60017f00600000
    022a030275760969646c655f696e697400000275760a69646c655f7374617274000102757604656d69740002
    0303020304
    040401700001
    0606017f0141000b
    070b010775765f6d61696e0004
    0907010041000b0103
    0a25021900230041016a24002300419e8d064f04402300ad10021a0b0b09001000410010011a0b";

/// An idle callback that counts its runs, and traps in run 99,999.
const TRAPS: &str = "0061736d 01000000
    0117056000017f60027f7f017f60017e017f60017f00600000
    022a030275760969646c655f696e697400000275760a69646c655f7374617274000102757604656d69740002
    0303020304
    040401700001
    0606017f0141000b
    070b010775765f6d61696e0004
    0907010041000b0103
    0a20021400230041016a24002300419f8d06460440000b0b09001000410010011a0b";

/// Asks for work 200 times, 32 at once, with the request's number as its operation; its work function adds 1. A timer's
/// callback in the turn after each post cancels every third request. Each after-work looks at whether it is the
/// request's first, whether it hears of a cancel exactly where that was answered 0, and at the result. The last emits
/// how many there were, and how much was wrong.
pub const CANCELS: &str = "0061736d 01000000
    012b086000017f60047f7f7e7e017f60037f7f7f017f60017f017f60017e017f60000060037f7f7f0060017f00
    0248050275760a74696d65725f696e697400000275760b74696d65725f737461727400010275760a71756575655f776f726b00020275760663616e63656c000302757604656d69740004
    03050405030607
    040401700001
    0503010001
    061a057f0141000b7f0141000b7f0141000b7f0141000b7f0141000b
    0725030775765f6d61696e00050775765f776f726b00060d75765f61667465725f776f726b0007
    0907010041000b0108
    0a9e0204
      110010002400230041004200420010011a0b
      0700200041016a0b
      85010020002d00002001470440230441016a24040b20002d0080080440230441016a24040b200041013a00800820010440200241837f470440230441016a24040b052002200041016a4704
        40230441016a24040b0b230341016a2403230341c8014604402303ac10041a2304ac10041a05230141c801490440230041004200420010011a0b0b0b
      7b01017f034023022301490440230241016a2402230241037045044023021003450440230241053a00000b0b0c010b0b02400340230141c8014f0d01230141016a41004100100222014100
        480d012001230141016a470440230441016a24040b200124010c000b0b23022301490440230041004200420010011a0b0b";

/// Asks for work that never ends, and meanwhile for 359 pieces more, of which it cancels all that no worker has started
/// as often as 31 are outstanding. The job of each is posted before, so that a worker that is busy leaves the board full.
/// Then it asks once more. The last after-work emits how many there were.
const FILLS: &str = "0061736d 01000000
    0129086000017f60027f7f017f60017f017f60037f7f7f017f60017e017f60000060017f0060037f7f7f00
    025506
      0275760969646c655f696e69740000 0275760a69646c655f73746172740001 0275760969646c655f73746f700002 0275760a71756575655f776f726b0003
      0275760663616e63656c0002 02757604656d69740004
    03080702050506050207
    040401700001
    0503010001
    0610037f0141000b7f0141000b7f0141000b
    0725030775765f6d61696e000a0775765f776f726b000b0d75765f61667465725f776f726b000c
    0907010041000b0109
    0abe0107
      1c01017f20004100410010032101200141004a0440200124000b20010b
      17000340230041e8024804404100100641004a0d010b0b0b
      2701017f230021000340200010041a200041016b2100200041014a2000230041206b4a710d000b0b
      250023020440100805230041e802480440100705200010021a410010061a0b0b23024524020b
      1401017f100021002000410010011a410110061a0b
      0b00034020000d000b41070b
      1800230141016a2401230141e9024604402301ac10051a0b0b";

/// So many loops and workers, with ample fuel.
pub fn ample(loops: u32, workers: u32) -> Serving
    requires loops { (1 ≤ loops) × (loops ≤ MAX_LOOPS) }
    requires workers { (1 ≤ workers) × (workers ≤ MAX_WORKERS) }
{
    Serving {
        loops,
        workers,
        settings: LoopSettings {
            fuel: 1_000_000,
            work_fuel: 1_000_000,
            depth: 64,
        },
    }
}

/// What comes of the loops that are served so.
pub fn served<R: Threads + Wait + Sync + AllocGlobal>(
    rt: &R,
    digits: &str,
    serving: Serving,
) -> Result<Vec<Served>, Fail> {
    let nobody = Meeting::new(rt.alloc(), 0)?;
    served_meeting(rt, digits, serving, &nobody, &nobody)
}

/// Loops that meet as they make a job, and workers that meet as they call one.
fn served_meeting<R: Threads + Wait + Sync + AllocGlobal>(
    rt: &R,
    digits: &str,
    serving: Serving,
    loops: &Meeting,
    workers: &Meeting,
) -> Result<Vec<Served>, Fail> {
    let alloc = rt.alloc();
    let make = move |task: Task| -> Result<JobBox, AllocError> {
        loops.meet();
        let ticket = task.ticket();
        let workers = workers.shared()?;
        let run = move || -> Reply
            ensures { ticket_of result.order ≡ ticket_of task }
        {
            workers.meet();
            task.run(alloc)
        };
        Ok(JobBox::new(ticket, Box::new(alloc, run)?))
    };
    Ok(serve(rt, alloc, linked_of(alloc, digits)?, serving, &make)?)
}

/// The lines of the loops that are served so.
fn lines<R: Threads + Wait + Sync + AllocGlobal>(
    rt: &R,
    digits: &str,
    serving: Serving,
) -> Result<String, Fail> {
    let served = served(rt, digits, serving)?;
    text_of(rt.alloc(), served.as_slice())
}

fn text_of(alloc: Global, served: &[Served]) -> Result<String, Fail> {
    let mut text = String::new(alloc);
    for one in served {
        writeln!(text, "{one}")?;
    }
    Ok(text)
}

/// That these are the lines of the loops that are served so.
pub fn check<R: Threads + Wait + Sync + AllocGlobal + Abort>(
    rt: &R,
    digits: &str,
    serving: Serving,
    wanted: &str,
) -> Result<(), Fail> {
    let text = lines(rt, digits, serving)?;
    check_told(rt, text.as_str(), wanted);
    Ok(())
}

#[test]
fn a_job_that_a_full_board_refused_is_posted_again(rt: HostRuntime) -> Result<(), Fail> {
    let serving = Serving {
        loops: 1,
        workers: 1,
        settings: LoopSettings {
            fuel: 1_000_000,
            work_fuel: 100_000,
            depth: 64,
        },
    };
    check(&rt, FILLS, serving, "loop 0 over emits 361\n")
}

#[test]
fn a_reply_comes_back_to_each_loop(rt: HostRuntime) -> Result<(), Fail> {
    check(
        &rt,
        ASKS_ONCE,
        ample(2, 3),
        "loop 0 over emits 6\nloop 1 over emits 6\n",
    )
}

#[test]
fn the_clock_is_raised_to_the_nearest_timer(rt: HostRuntime) -> Result<(), Fail> {
    check(&rt, TIMER, ample(1, 1), "loop 0 over emits 50\n")
}

#[test]
fn a_repeated_timer_runs_until_it_is_stopped(rt: HostRuntime) -> Result<(), Fail> {
    check(&rt, TICKS, ample(1, 1), "loop 0 over emits 5 15 25\n")
}

#[test]
fn work_without_fuel_is_told(rt: HostRuntime) -> Result<(), Fail> {
    let serving = Serving {
        loops: 1,
        workers: 1,
        settings: LoopSettings {
            fuel: 1_000_000,
            work_fuel: 2,
            depth: 64,
        },
    };
    check(&rt, ASKS_ONCE, serving, "loop 0 over emits 0\n")
}

#[test]
fn a_loop_fails(rt: HostRuntime) -> Result<(), Fail> {
    let serving = Serving {
        loops: 2,
        workers: 1,
        settings: LoopSettings {
            fuel: 1_000_000,
            work_fuel: 1_000_000,
            depth: 3,
        },
    };
    check(
        &rt,
        CALLS_ITSELF,
        serving,
        "loop 0 failed emits\nloop 1 failed emits\n",
    )
}

#[test]
fn a_loop_that_nothing_wakes_waits(rt: HostRuntime) -> Result<(), Fail> {
    check(&rt, WAITS, ample(1, 1), "loop 0 waiting emits\n")
}

#[test]
fn a_loop_ends_at_once_with_its_last_callback(rt: HostRuntime) -> Result<(), Fail> {
    check(&rt, COUNTS, ample(1, 1), "loop 0 limit emits 99998 99999\n")
}

#[test]
fn a_last_callback_that_fails_is_a_failure(rt: HostRuntime) -> Result<(), Fail> {
    check(&rt, TRAPS, ample(1, 1), "loop 0 failed emits\n")
}

/// The lines of as many loops as may be, each of which emits the sum of its results.
fn all_over(alloc: Global) -> Result<String, Fail> {
    let mut text = String::new(alloc);
    for loop_no in 0..MAX_LOOPS {
        writeln!(text, "loop {loop_no} over emits 992")?;
    }
    Ok(text)
}

#[test]
fn many_loops_share_many_workers(rt: HostRuntime) -> Result<(), Fail> {
    let wanted = all_over(rt.alloc())?;
    check(&rt, ASKS, ample(MAX_LOOPS, MAX_WORKERS), wanted.as_str())
}

#[test]
fn each_request_has_one_after_work_of_the_right_kind(rt: HostRuntime) -> Result<(), Fail> {
    check(
        &rt,
        CANCELS,
        ample(2, 3),
        "loop 0 over emits 200 0\nloop 1 over emits 200 0\n",
    )
}

#[test]
fn loops_run_side_by_side(rt: HostRuntime) -> Result<(), Fail> {
    let loops = Meeting::new(rt.alloc(), MAX_LOOPS)?;
    let nobody = Meeting::new(rt.alloc(), 0)?;
    served_meeting(&rt, ASKS_ONCE, ample(MAX_LOOPS, 1), &loops, &nobody)?;
    shows(&rt, loops.took_place(), true);
    Ok(())
}

#[test]
fn all_workers_are_at_work(rt: HostRuntime) -> Result<(), Fail> {
    let nobody = Meeting::new(rt.alloc(), 0)?;
    let workers = Meeting::new(rt.alloc(), MAX_WORKERS)?;
    served_meeting(&rt, ASKS, ample(1, MAX_WORKERS), &nobody, &workers)?;
    shows(&rt, workers.took_place(), true);
    Ok(())
}
