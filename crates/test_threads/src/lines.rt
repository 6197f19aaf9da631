// Jobs that two threads take while two others post.

ghost use Rattle.std.specs.Prelude.{◌≡◌, ◌<◌};
ghost use Rattle.std.specs.Thread.{IsSync};
ghost use Rattle.limits.specs.declared.TheConstants.{MAX_LOOPS};

use crate::hands::{BoardHand, two_hands};
use crate::jobs::Jobs;
use crate::showing::shows;
use board::{Board, JobBox};
use claims::Ticket;
use std::alloc::{AllocError, Global};
use std::sync::Wait;
use std::sync::atomic::{AtomicU64, Ordering};
use std::test::Fail;
use std::thread;
use std::thread::Threads;

/// How many jobs each of the two posts. Their tickets have its number for the loop's, and count from 0.
const EACH: usize = 100;

/// What one thread took of the jobs of one poster: how often each, and whether they came in their order.
#[derive(Clone, Copy)]
struct Taken {
    times: [u32; EACH],
    next: u32,
    rises: bool,
}

impl Taken {
    const NOTHING: Taken = Taken {
        times: [0; EACH],
        next: 0,
        rises: true,
    };

    fn note(&mut self, request: u32) {
        self.rises = self.rises && request >= self.next;
        self.next = request.saturating_add(1);
        if let Some(times) = self.times.get_mut(request as usize) {
            *times = times.saturating_add(1);
        }
    }
}

/// What one thread took of both posters' jobs.
type TakenOfBoth = [Taken; 2];

/// Posts the jobs in their order. Whether all were taken.
fn post_all<R: Wait>(rt: &R, hand: &mut BoardHand<'_>, jobs: Vec<JobBox>) -> bool {
    for job in jobs {
        if hand.post(rt, job).is_some() {
            return false;
        }
    }
    true
}

/// Takes until all jobs are taken, in at most 1,000,000 turns.
fn take_all<R: Wait>(rt: &R, hand: &mut BoardHand<'_>, count: &AtomicU64) -> TakenOfBoth {
    let mut taken = [Taken::NOTHING; 2];
    for _ in 0..1_000_000 {
        if count.load(Ordering::SeqCst) == 2 * EACH as u64 {
            break;
        }
        match hand.take(rt) {
            Some(ticket) => {
                note(&mut taken, ticket);
                count.fetch_add(1, Ordering::SeqCst);
            }
            None => thread::yield_now(),
        }
    }
    taken
}

fn note(taken: &mut TakenOfBoth, ticket: Ticket) {
    if let Some(taken) = taken.get_mut(ticket.loop_no as usize) {
        taken.note(ticket.request);
    }
}

/// Posts the jobs in a thread of its own.
fn start_to_post<'s, R: Wait + Sync, E>(
    scope: &thread::Scope<'s, E>,
    rt: &'s R,
    mut hand: BoardHand<'s>,
    jobs: Vec<JobBox>,
) -> Result<(), AllocError>
    requires { IsSync R.row }
{
    scope.spawn(move || post_all(rt, &mut hand, jobs))?;
    Ok(())
}

/// Whether two threads take the jobs of each of two others in their order.
fn post_and_take<R: Threads + Wait + Sync>(
    rt: &R,
    posters: (BoardHand<'_>, BoardHand<'_>),
    takers: (BoardHand<'_>, BoardHand<'_>),
    jobs: (Vec<JobBox>, Vec<JobBox>),
) -> Result<(bool, bool), AllocError> {
    let count = AtomicU64::new(0);
    let count = &count;
    let (one, two) = posters;
    let (mut three, mut four) = takers;
    let (first, second) = jobs;
    thread::scope(
        thread::scope_env(),
        rt,
        move |scope| -> Result<(bool, bool), AllocError>
            requires { IsSync R.row }
        {
            start_to_post(scope, rt, one, first)?;
            start_to_post(scope, rt, two, second)?;
            let left = scope.spawn(move || take_all(rt, &mut three, count))?;
            let right = take_all(rt, &mut four, count);
            Ok(are_both_in_order(&left.join(rt), &right))
        },
    )
}

/// Whether both threads took one poster's jobs in their order, and each job was taken once, by either.
fn are_in_order(left: &Taken, right: &Taken) -> bool {
    for (a, b) in left.times.iter().zip(right.times.iter()) {
        if a.saturating_add(*b) != 1 {
            return false;
        }
    }
    left.rises && right.rises
}

fn are_both_in_order(left: &TakenOfBoth, right: &TakenOfBoth) -> (bool, bool) {
    let [a, b] = left;
    let [c, d] = right;
    (are_in_order(a, c), are_in_order(b, d))
}

fn hundred_jobs(alloc: Global, jobs: &Jobs, loop_no: u32) -> Result<Vec<JobBox>, AllocError>
    requires { loop_no < MAX_LOOPS }
{
    let mut made = Vec::new(alloc);
    for request in 0..EACH as u32 {
        let ticket = Ticket {
            loop_no,
            slot: 0,
            request,
        };
        made.push(jobs.job(ticket)?)?;
    }
    Ok(made)
}

fn by_four_threads<R: Threads + Wait + Sync>(
    rt: &R,
    alloc: Global,
    jobs: (Vec<JobBox>, Vec<JobBox>),
) -> Result<(bool, bool), AllocError> {
    let (board, mut passes) = Board::new(alloc, 1, 4)?;
    let posters = two_hands(&board, &mut passes);
    let takers = two_hands(&board, &mut passes);
    post_and_take(rt, posters, takers, jobs)
}

/// Hundred jobs of each of two posters.
fn both_jobs(alloc: Global) -> Result<(Vec<JobBox>, Vec<JobBox>), Fail> {
    let jobs = Jobs::new(alloc)?;
    Ok((
        hundred_jobs(alloc, &jobs, 0)?,
        hundred_jobs(alloc, &jobs, 1)?,
    ))
}

#[test]
fn jobs_come_out_in_the_order_of_each_pass(rt: HostRuntime) -> Result<(), Fail> {
    let jobs = both_jobs(rt.alloc())?;
    shows(&rt, by_four_threads(&rt, rt.alloc(), jobs)?, (true, true));
    Ok(())
}
