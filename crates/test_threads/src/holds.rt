// Two workers, one of which is held until the other's reply is collected.

use crate::hall::{LoopSide, Spares};
use crate::jobs::Jobs;
use crate::scenes::{Onlooker, Scene, at_work, played};
use crate::showing::shows;
use std::sync::Wait;
use std::test::Fail;
use std::thread;
use std::thread::Threads;

/// The request whose reply is collected first, in at most 1,000,000 turns; none is 0.
struct FirstCollected;

impl Onlooker for FirstCollected {
    type Seen = u32;

    fn watch<R: Wait>(&self, rt: &R, side: &mut LoopSide<'_>) -> u32 {
        let mut first = 0;
        for _ in 0..1_000_000 {
            if let Some(request) = side.collect(rt) {
                first = request;
                break;
            }
            thread::yield_now();
        }
        first
    }
}

/// Opens two requests and posts their jobs. Whether each was taken.
fn post_two<R: Wait>(rt: &R, side: &mut LoopSide<'_>) -> Result<(bool, bool), Fail> {
    side.open()?;
    side.open()?;
    Ok((side.post(rt), side.post(rt)))
}

/// Whether each of two requests is posted, and which is replied to first where both workers are at it and the first request
/// is held.
struct AtOnce;

impl Scene for AtOnce {
    type Seen = ((bool, bool), u32);

    fn play<R: Threads + Wait + Sync>(
        &self,
        rt: &R,
        _jobs: &Jobs,
        side: &mut LoopSide<'_>,
        spares: &mut Spares<'_>,
    ) -> Result<((bool, bool), u32), Fail> {
        let posted = post_two(rt, side)?;
        Ok((posted, at_work(rt, &FirstCollected, side, spares, 2, 1)?))
    }
}

#[test]
fn two_workers_run_at_once(rt: HostRuntime) -> Result<(), Fail> {
    let seen = played(&rt, rt.alloc(), &AtOnce, 2, 2)?;
    shows(&rt, seen, (((true, true), 2), 1));
    Ok(())
}
