// Several workers that work until the board is closed, on a line of replies that is full initially.

ghost use Rattle.std.specs.Prelude.{◌≡◌};

use crate::hall::{LoopSide, Spares, ticket};
use crate::jobs::Jobs;
use crate::scenes::{Onlooker, Scene, at_work, played};
use crate::showing::shows;
use limits::MAX_REPLIES;
use std::alloc::AllocError;
use std::sync::Wait;
use std::test::Fail;
use std::thread;
use std::thread::Threads;
use test_fixtures::comes;

const WORKERS: u32 = 3;

const POSTED: usize = 10;

/// The number of the first of the replies that fill the line. No job has it.
const FILLING: u32 = 100;

/// How often a reply of each posted request was collected.
type Times = [u32; POSTED];

/// Fills the line of replies. Whether it is full then.
fn fill<R: Wait>(rt: &R, jobs: &Jobs, side: &mut LoopSide<'_>) -> Result<bool, AllocError> {
    for n in 0..=MAX_REPLIES as u32 {
        let reply = jobs.reply(ticket(FILLING + n))?;
        if !side.put_reply(rt, reply) {
            return Ok(n == MAX_REPLIES as u32);
        }
    }
    Ok(false)
}

/// Opens the requests and posts their jobs. Whether all were taken.
fn post_all<R: Wait>(rt: &R, side: &mut LoopSide<'_>) -> Result<bool, Fail> {
    for _ in 0..POSTED {
        side.open()?;
        if !side.post(rt) {
            return Ok(false);
        }
    }
    Ok(true)
}

/// Waits until each worker has called a job, and gives them time for more. How many jobs are called then.
fn called_while_full(jobs: &Jobs) -> u64 {
    comes(&jobs.calls, u64::from(WORKERS));
    for _ in 0..1_000 {
        thread::yield_now();
    }
    jobs.called()
}

/// Notes that a reply was collected.
fn count(times: &mut Times, request: u32) {
    if let Some(times) = times.get_mut((request as usize).wrapping_sub(1)) {
        *times = times.saturating_add(1);
    }
}

/// Collects so many replies, in at most 1,000,000 turns.
fn collect<R: Wait>(rt: &R, side: &mut LoopSide<'_>, most: usize) -> Times {
    let mut times = [0; POSTED];
    let mut left = most;
    for _ in 0..1_000_000 {
        if left == 0 {
            break;
        }
        match side.collect(rt) {
            Some(request) => {
                count(&mut times, request);
                left -= 1;
            }
            None => thread::yield_now(),
        }
    }
    times
}

/// Fills the line of replies and posts the jobs.
fn load<R: Wait>(rt: &R, jobs: &Jobs, side: &mut LoopSide<'_>) -> Result<(), Fail> {
    if !fill(rt, jobs, side)? || !post_all(rt, side)? {
        return Err(Fail::from("no full line, or no room for the jobs"));
    }
    Ok(())
}

/// What was seen of the posted jobs: how many were called while the line was full, how often each was collected, and how
/// many were called at the end.
#[derive(Clone, Copy, Debug, PartialEq)]
struct Seen {
    called_while_full: u64,
    times: Times,
    calls: u64,
}

/// So many replies are collected before the board is closed.
#[derive(Clone, Copy)]
struct Crowd {
    most: usize,
}

impl Scene for Crowd {
    type Seen = Seen;

    fn play<R: Threads + Wait + Sync>(
        &self,
        rt: &R,
        jobs: &Jobs,
        side: &mut LoopSide<'_>,
        spares: &mut Spares<'_>,
    ) -> Result<Seen, Fail> {
        load(rt, jobs, side)?;
        let most = self.most;
        let (called_while_full, times) = at_work(
            rt,
            &Collecting { jobs, most },
            side,
            spares,
            WORKERS,
            0,
        )?;
        Ok(Seen {
            called_while_full,
            times,
            calls: jobs.called(),
        })
    }
}

/// How many jobs the workers call while the line is full, and what is collected then.
#[derive(Clone, Copy)]
struct Collecting<'a> {
    jobs: &'a Jobs,
    most: usize,
}

impl Onlooker for Collecting<'_> {
    type Seen = (u64, Times);

    fn watch<R: Wait>(&self, rt: &R, side: &mut LoopSide<'_>) -> (u64, Times) {
        (called_while_full(self.jobs), collect(rt, side, self.most))
    }
}

#[test]
fn a_refused_reply_is_put_once_there_is_room(rt: HostRuntime) -> Result<(), Fail> {
    let expected = Seen {
        called_while_full: u64::from(WORKERS),
        times: [1; POSTED],
        calls: POSTED as u64,
    };
    let crowd = Crowd {
        most: MAX_REPLIES + POSTED,
    };
    let seen = played(&rt, rt.alloc(), &crowd, WORKERS, POSTED as u32)?;
    shows(&rt, seen, (expected, 1));
    Ok(())
}

#[test]
fn workers_end_though_their_replies_are_refused(rt: HostRuntime) -> Result<(), Fail> {
    let expected = Seen {
        called_while_full: u64::from(WORKERS),
        times: [0; POSTED],
        calls: u64::from(WORKERS),
    };
    let seen = played(&rt, rt.alloc(), &Crowd { most: 0 }, WORKERS, POSTED as u32)?;
    shows(&rt, seen, (expected, 1));
    Ok(())
}
