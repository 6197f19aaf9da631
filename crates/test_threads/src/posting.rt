// A board, by one thread: what comes out of it, and what comes back.

use crate::hall::ticket;
use crate::hands::{BoardHand, two_hands};
use crate::jobs::Jobs;
use crate::showing::shows;
use board::{Board, Pass};
use limits::{MAX_JOBS, MAX_LOOPS, MAX_REPLIES};
use std::alloc::{AllocError, Global};
use std::process::Abort;
use std::sync::Wait;
use std::test::Fail;

/// A job goes from one hand to the other, and its reply back.
fn pass_on<R: Wait + Abort>(
    rt: &R,
    jobs: &Jobs,
    poster: &mut BoardHand<'_>,
    worker: &mut BoardHand<'_>,
) -> Result<(), AllocError> {
    shows(rt, worker.take(rt), None);
    shows(rt, poster.post(rt, jobs.job(ticket(1))?), None);
    shows(rt, worker.take(rt), Some(ticket(1)));
    shows(rt, worker.put(rt, jobs.reply(ticket(1))?), None);
    shows(
        rt,
        (poster.collect(rt), poster.collect(rt)),
        (Some(1), None),
    );
    Ok(())
}

/// So many jobs and replies are taken in, and the next of each comes back.
fn fill<R: Wait + Abort>(rt: &R, jobs: &Jobs, hand: &mut BoardHand<'_>) -> Result<(), AllocError> {
    for request in 0..MAX_JOBS as u32 {
        shows(rt, hand.post(rt, jobs.job(ticket(request))?), None);
    }
    let last = ticket(MAX_JOBS as u32);
    shows(rt, hand.post(rt, jobs.job(last)?), Some(last));
    for request in 0..MAX_REPLIES as u32 {
        shows(rt, hand.put(rt, jobs.reply(ticket(request))?), None);
    }
    let last = ticket(MAX_REPLIES as u32);
    shows(rt, hand.put(rt, jobs.reply(last)?), Some(last.request));
    Ok(())
}

fn by_two_hands<R: Wait + Abort>(rt: &R, alloc: Global, jobs: &Jobs) -> Result<(), AllocError> {
    let (board, mut passes) = Board::new(alloc, 1, 2)?;
    let (mut poster, mut worker) = two_hands(&board, &mut passes);
    let passed = pass_on(rt, jobs, &mut poster, &mut worker);
    drop((poster, worker));
    drop((board, passes));
    passed
}

fn by_one_hand<R: Wait + Abort>(rt: &R, alloc: Global, jobs: &Jobs) -> Result<(), AllocError> {
    let (board, mut passes) = Board::new(alloc, 2, 2)?;
    let (mut hand, other) = two_hands(&board, &mut passes);
    let filled = fill(rt, jobs, &mut hand);
    drop((hand, other));
    drop((board, passes));
    filled
}

#[test]
fn what_one_pass_posts_another_takes_and_a_full_line_gives_back(
    rt: HostRuntime,
) -> Result<(), Fail> {
    let jobs = Jobs::new(rt.alloc())?;
    by_two_hands(&rt, rt.alloc(), &jobs)?;
    by_one_hand(&rt, rt.alloc(), &jobs)?;
    Ok(())
}

fn is_closed_once(rt: &impl Abort, board: &Board) {
    shows(rt, (board.loops(), board.is_closed()), (MAX_LOOPS, false));
    board.close();
    shows(rt, board.is_closed(), true);
}

#[test]
fn a_board_is_closed(rt: HostRuntime) -> Result<(), Fail> {
    let (board, _passes): (Board, Vec<Pass>) = Board::new(rt.alloc(), MAX_LOOPS, 1)?;
    is_closed_once(&rt, &board);
    Ok(())
}
