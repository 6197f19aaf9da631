// Claims: one of cancel and start, by threads.

ghost use Rattle.std.specs.Prelude.{◌≡◌, ◌+◌, ◌<◌, ◌≤◌, All, IfOk, IfSome};
ghost use Rattle.limits.specs.declared.TheConstants.{MAX_REQUESTS, MAX_REQUEST_NUMBER};
ghost use Rattle.claims.specs.Views.{new_loop_view, new_worker_view};

use crate::showing::shows;
use claims::{Claims, LoopSeat, NewClaims, Ticket, WorkerSeat};
use limits::{MAX_LOOPS, MAX_WORKERS};
use std::alloc::{AllocError, Global};
use std::snapshot::Snapshot;
use std::sync::Wait;
use std::test::Fail;
use std::thread;
use std::thread::{Promise, Threads};

const ROUNDS: u32 = 1_000;

/// A thread gives a loop's seat back with the requests that it had opened.
#[derive(Drop)]
struct SameLoop(Snapshot<LoopSeat>);

impl Promise<(bool, LoopSeat)> for SameLoop {
    ghost kept_by = { λ p r. (r.1.claims ≡ p.0.value.claims) × (r.1.loop_no ≡ p.0.value.loop_no) × (r.1.opened ≡ p.0.value.opened) };
}

/// A thread gives a worker's seat of the same claims back.
#[derive(Drop)]
struct SameWorker(Snapshot<WorkerSeat>);

impl Promise<(bool, WorkerSeat)> for SameWorker {
    ghost kept_by = { λ p r. r.1.claims ≡ p.0.value.claims };
}

fn cancelled(claims: &Claims, mut seat: LoopSeat, ticket: Ticket) -> (bool, LoopSeat)
    requires own { seat.claims ≡ claims.now.id }
    requires there { (ticket.loop_no ≡ seat.loop_no) × (ticket.slot < MAX_REQUESTS) }
    ensures { (result.1.claims ≡ seat.claims) × (result.1.loop_no ≡ seat.loop_no) × (result.1.opened ≡ seat.opened) }
{
    let answer = claims.cancel(&mut seat, ticket);
    (answer, seat)
}

fn started(claims: &Claims, mut seat: WorkerSeat, ticket: Ticket) -> (bool, WorkerSeat)
    requires own { seat.claims ≡ claims.now.id }
    requires there { (ticket.loop_no < MAX_LOOPS) × (ticket.slot < MAX_REQUESTS) }
    ensures { result.1.claims ≡ seat.claims }
{
    let answer = claims.start(&mut seat, ticket);
    (answer, seat)
}

/// A loop cancels and a worker starts one request, each in a thread of its own.
fn race<R: Threads + Wait>(
    rt: &R,
    claims: &Claims,
    loop_seat: LoopSeat,
    worker_seat: WorkerSeat,
    ticket: Ticket,
) -> Option<((bool, LoopSeat), (bool, WorkerSeat))>
    requires own { (loop_seat.claims ≡ claims.now.id) × (worker_seat.claims ≡ claims.now.id) }
    requires there { (ticket.loop_no ≡ loop_seat.loop_no) × (ticket.loop_no < MAX_LOOPS) × (ticket.slot < MAX_REQUESTS) }
    ensures loops { IfSome result (λ r. (r.0.1.claims ≡ loop_seat.claims) × (r.0.1.loop_no ≡ loop_seat.loop_no) × (r.0.1.opened ≡ loop_seat.opened)) }
    ensures workers { IfSome result (λ r. r.1.1.claims ≡ worker_seat.claims) }
{
    let same_loop = SameLoop(Snapshot::of(&loop_seat));
    let same_worker = SameWorker(Snapshot::of(&worker_seat));
    thread::scope(
        thread::scope_env(),
        rt,
        move |scope| -> Option<((bool, LoopSeat), (bool, WorkerSeat))>
            requires own { (loop_seat.claims ≡ claims.now.id) × (worker_seat.claims ≡ claims.now.id) }
            requires there { (ticket.loop_no ≡ loop_seat.loop_no) × (ticket.loop_no < MAX_LOOPS) × (ticket.slot < MAX_REQUESTS) }
            requires same { (same_loop.0.value ≡ loop_seat) × (same_worker.0.value ≡ worker_seat) }
            ensures loops { IfSome result (λ r. (r.0.1.claims ≡ loop_seat.claims) × (r.0.1.loop_no ≡ loop_seat.loop_no) × (r.0.1.opened ≡ loop_seat.opened)) }
            ensures workers { IfSome result (λ r. r.1.1.claims ≡ worker_seat.claims) }
        {
            let Ok(canceller) = scope.spawn_with(
                same_loop,
                move || cancelled(claims, loop_seat, ticket),
            ) else {
                return None;
            };
            let Ok(starter) = scope.spawn_with(
                same_worker,
                move || started(claims, worker_seat, ticket),
            ) else {
                return None;
            };
            Some((canceller.join(rt), starter.join(rt)))
        },
    )
}

/// Claims for one loop and one worker, with their seats.
fn one_of_each(alloc: Global) -> Result<(Claims, LoopSeat, WorkerSeat), AllocError>
    ensures { IfOk result (λ m. (m.0.loops ≡ 1) × (m.1 ≡ new_loop_view m.0.id 0) × (m.2 ≡ new_worker_view m.0.id 0)) }
{
    let NewClaims {
        claims,
        mut loop_seats,
        mut worker_seats,
    } = Claims::new(alloc, 1, 1)?;
    let Some(loop_seat) = loop_seats.pop() else {
        unreachable!()
    };
    let Some(worker_seat) = worker_seats.pop() else {
        unreachable!()
    };
    Ok((claims, loop_seat, worker_seat))
}

/// Opens the request in slot 0.
#[tactic(auto, using(crate::proofs::RequestsRise::below_next))]
fn opened(claims: &Claims, seat: &mut LoopSeat, request: u32) -> Ticket
    requires own { seat.old.claims ≡ claims.now.id }
    requires request { (0 < request) × (request ≤ MAX_REQUEST_NUMBER) }
    requires rising { All (λ c. c.1 < request) seat.old.opened }
    ensures seat { (seat.new.claims ≡ seat.old.claims) × (seat.new.loop_no ≡ seat.old.loop_no) × All (λ c. c.1 < request + 1) seat.new.opened }
    ensures ticket { (result.loop_no ≡ seat.old.loop_no) × (result.slot ≡ 0) }
{
    claims.open(seat, 0, request);
    Ticket {
        loop_no: seat.loop_no(),
        slot: 0,
        request,
    }
}

/// A second start and a second cancel.
fn again(
    claims: &Claims,
    loop_seat: &mut LoopSeat,
    worker_seat: &mut WorkerSeat,
    ticket: Ticket,
) -> (bool, bool)
    requires own { (loop_seat.old.claims ≡ claims.now.id) × (worker_seat.old.claims ≡ claims.now.id) }
    requires there { (ticket.loop_no ≡ loop_seat.old.loop_no) × (ticket.loop_no < MAX_LOOPS) × (ticket.slot < MAX_REQUESTS) }
    ensures loops { (loop_seat.new.claims ≡ loop_seat.old.claims) × (loop_seat.new.loop_no ≡ loop_seat.old.loop_no) × (loop_seat.new.opened ≡ loop_seat.old.opened) }
    ensures workers { worker_seat.new.claims ≡ worker_seat.old.claims }
{
    (
        claims.start(worker_seat, ticket),
        claims.cancel(loop_seat, ticket),
    )
}

#[test]
fn one_of_cancel_and_start_wins(rt: HostRuntime) -> Result<(), Fail> {
    let (claims, mut loop_seat, mut worker_seat) = one_of_each(rt.alloc())?;
    for round in 0..ROUNDS {
        let ticket = opened(&claims, &mut loop_seat, round + 1);
        let raced = race(&rt, &claims, loop_seat, worker_seat, ticket);
        let ((cancelled, canceller), (started, starter)) = raced.expect(&rt, "two threads");
        loop_seat = canceller;
        worker_seat = starter;
        let then = again(&claims, &mut loop_seat, &mut worker_seat, ticket);
        shows(
            &rt,
            (round, cancelled != started, then),
            (round, true, (false, false)),
        );
    }
    Ok(())
}

#[test]
fn an_open_request_is_started(rt: HostRuntime) -> Result<(), Fail> {
    let (claims, mut loop_seat, mut worker_seat) = one_of_each(rt.alloc())?;
    for round in 0..ROUNDS {
        let ticket = opened(&claims, &mut loop_seat, round + 1);
        let started = claims.start(&mut worker_seat, ticket);
        let then = again(&claims, &mut loop_seat, &mut worker_seat, ticket);
        shows(&rt, (round, started, then), (round, true, (false, false)));
    }
    Ok(())
}

/// What a cancel of request 1 in slot 3 answers, and, once request 9 is opened there, a start of each.
fn opens_anew(
    claims: &Claims,
    loop_seat: &mut LoopSeat,
    worker_seat: &mut WorkerSeat,
) -> (bool, bool, bool)
    requires loops { claims.now.loops ≡ 1 }
    requires new { loop_seat.old ≡ new_loop_view claims.now.id 0 }
    requires own { worker_seat.old.claims ≡ claims.now.id }
{
    let first = Ticket {
        loop_no: 0,
        slot: 3,
        request: 1,
    };
    claims.open(loop_seat, 3, 1);
    let cancelled = claims.cancel(loop_seat, first);
    claims.open(loop_seat, 3, 9);
    let started = claims.start(worker_seat, first);
    let second = Ticket {
        request: 9,
        ..first
    };
    (cancelled, started, claims.start(worker_seat, second))
}

#[test]
fn a_slot_opened_anew_is_not_the_old_request(rt: HostRuntime) -> Result<(), Fail> {
    let (claims, mut loop_seat, mut worker_seat) = one_of_each(rt.alloc())?;
    let seen = opens_anew(&claims, &mut loop_seat, &mut worker_seat);
    shows(&rt, seen, (true, false, true));
    Ok(())
}

/// How many loops' seats there are, if they are numbered in turn.
fn loops_in_turn(seats: &[LoopSeat]) -> Option<u32> {
    let mut count = 0;
    for seat in seats {
        if seat.loop_no() != count {
            return None;
        }
        count = count.checked_add(1)?;
    }
    Some(count)
}

/// How many workers' seats there are, if they are numbered in turn.
fn workers_in_turn(seats: &[WorkerSeat]) -> Option<u32> {
    let mut count = 0;
    for seat in seats {
        if seat.worker_no() != count {
            return None;
        }
        count = count.checked_add(1)?;
    }
    Some(count)
}

#[test]
fn seats_are_numbered(rt: HostRuntime) -> Result<(), Fail> {
    let opened = Claims::new(rt.alloc(), MAX_LOOPS, MAX_WORKERS)?;
    shows(&rt, opened.claims.loops(), MAX_LOOPS);
    shows(
        &rt,
        loops_in_turn(opened.loop_seats.as_slice()),
        Some(MAX_LOOPS),
    );
    shows(
        &rt,
        workers_in_turn(opened.worker_seats.as_slice()),
        Some(MAX_WORKERS),
    );
    Ok(())
}

/// Whether a worker starts request 1, and, once its seat is joined, the loop cancels request 2.
fn joins(claims: &Claims, loop_seat: &mut LoopSeat, mut worker_seat: WorkerSeat) -> (bool, bool)
    requires loops { claims.now.loops ≡ 1 }
    requires new { loop_seat.old ≡ new_loop_view claims.now.id 0 }
    requires own { worker_seat.claims ≡ claims.now.id }
{
    let first = opened(claims, loop_seat, 1);
    let started = claims.start(&mut worker_seat, first);
    claims.join(loop_seat, worker_seat);
    let second = opened(claims, loop_seat, 2);
    (started, claims.cancel(loop_seat, second))
}

#[test]
fn a_joined_worker_tells_what_it_started(rt: HostRuntime) -> Result<(), Fail> {
    let (claims, mut loop_seat, worker_seat) = one_of_each(rt.alloc())?;
    let told = joins(&claims, &mut loop_seat, worker_seat);
    shows(&rt, told, (true, true));
    Ok(())
}

/// What a start of request 1 answers before and behind its post, with the post between; and what a cancel of request 2 answers
/// that isn't posted, and its post behind it.
fn posts(
    claims: &Claims,
    loop_seat: LoopSeat,
    worker_seat: &mut WorkerSeat,
) -> ((bool, bool, bool), (bool, bool))
    requires loops { claims.now.loops ≡ 1 }
    requires new { loop_seat ≡ new_loop_view claims.now.id 0 }
    requires own { worker_seat.old.claims ≡ claims.now.id }
{
    let mut loop_seat = loop_seat.posting();
    let first = opened(claims, &mut loop_seat, 1);
    let early = claims.start(worker_seat, first);
    let posted = claims.post(&mut loop_seat, first.slot, 1);
    let started = claims.start(worker_seat, first);
    let second = opened(claims, &mut loop_seat, 2);
    let cancelled = claims.cancel(&mut loop_seat, second);
    let late = claims.post(&mut loop_seat, second.slot, 2);
    ((early, posted, started), (cancelled, late))
}

#[test]
fn a_request_is_started_once_it_is_posted(rt: HostRuntime) -> Result<(), Fail> {
    let (claims, loop_seat, mut worker_seat) = one_of_each(rt.alloc())?;
    let seen = posts(&claims, loop_seat, &mut worker_seat);
    shows(&rt, seen, ((false, true, true), (true, false)));
    Ok(())
}
