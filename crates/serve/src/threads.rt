// The threads of the loops and the workers.

ghost use Rattle.std.specs.Prelude.{◌≡◌, ◌≤◌, [], length, vec_capacity, IfOk, OnOk};
ghost use Rattle.std.specs.Thread.{IsSync};
ghost use Rattle.serve.specs.Inner.Ends.{LoopEnds, EachLoopEnds, WorkerEnds};
ghost use Rattle.serve.specs.Inner.Places.{EachFrom, EachDown, EachPair};
ghost use Rattle.serve.specs.Inner.Promises.{IsThreadOf, planned};

use crate::crew::{join_workers, start_workers};
use crate::job::Job;
use crate::place::{LoopPlace, WorkerPlace};
use crate::plan::{LoopResult, ServicePlan, ThreadOfLoop};
use crate::served::Served;
use crate::service::Service;
use crate::task::Task;
use crate::watch::Watch;
use board::{Board, Pass};
use claims::{Claims, LoopSeat, WorkerSeat};
use std::alloc::AllocError;
use std::sync::Wait;
use std::thread;
use std::thread::{PromisedHandle, Scope, Threads};

/// What the threads of a run have given back.
#[derive(Drop)]
pub struct ThreadsEnded<J> {
    /// What each loop did.
    pub served: Vec<Served>,
    /// The loops' passes.
    pub loops: Vec<Pass<J>>,
    /// The loops' seats.
    pub loop_seats: Vec<LoopSeat>,
    /// The workers' passes.
    pub workers: Vec<Pass<J>>,
    /// The workers' seats.
    pub seats: Vec<WorkerSeat>,
}

/// What the loops' threads have given back.
#[derive(Drop)]
struct LoopsEnded<J> {
    /// What each loop did.
    served: Vec<Served>,
    passes: Vec<Pass<J>>,
    seats: Vec<LoopSeat>,
}

/// The handle of a loop's thread.
type LoopHandle<'s, J> = PromisedHandle<LoopResult<J>, ThreadOfLoop<'s, J>>;

/// Starts the workers and then the loops, and closes the board once all loops have ended.
pub fn run_all<
    'a,
    R: Threads + Wait + Sync,
    M: Fn(Task) -> Result<J, AllocError> + Sync,
    J: Job + Send,
    W: Watch + Sync,
>(
    service: &Service<'_, R, M, W>,
    plan: &ServicePlan,
    board: &'a Board<J>,
    claims: &'a Claims,
    workers: Vec<WorkerPlace<'a, J>>,
    loops: Vec<LoopPlace<'a, J>>,
) -> Result<ThreadsEnded<J>, AllocError>
    requires make { M.IsAlwaysCallable service.now.make.now }
    requires workers { EachDown (λ w p. (p.board.now ≡ board.now) × (p.claims.now ≡ claims.now) × (p.seat.worker_no ≡ w)) (length workers.items) workers.items }
    requires loops { EachDown (λ k p. (p.board.now ≡ board.now) × (p.claims.now ≡ claims.now) × (p.seat.loop_no ≡ k)) (length loops.items) loops.items }
    ensures loops_count { IfOk result (λ r. length r.served.items ≡ length loops.entry.items) }
    ensures loops { IfOk result (λ r. EachLoopEnds J.ticket board.now claims.now.id (planned plan.now) r.served.items r.loops.items r.loop_seats.items) }
    ensures workers_count { IfOk result (λ r. length r.workers.items ≡ length workers.entry.items) }
    ensures workers { IfOk result (λ r. EachPair (WorkerEnds J.ticket board.now claims.now) 0 r.workers.items r.seats.items) }
{
    thread::scope(
        thread::scope_env(),
        service.rt,
        move |scope| -> Result<ThreadsEnded<J>, AllocError>
            requires make { M.IsAlwaysCallable service.now.make.now }
            requires sync { IsSync R.row × IsSync M.row × IsSync W.row }
            requires workers { EachDown (λ w p. (p.board.now ≡ board.now) × (p.claims.now ≡ claims.now) × (p.seat.worker_no ≡ w)) (length workers.items) workers.items }
            requires loops { EachDown (λ k p. (p.board.now ≡ board.now) × (p.claims.now ≡ claims.now) × (p.seat.loop_no ≡ k)) (length loops.items) loops.items }
            ensures loops_count { IfOk result (λ r. length r.served.items ≡ length loops.entry.items) }
            ensures loops { IfOk result (λ r. EachLoopEnds J.ticket board.entry.now claims.entry.now.id (planned plan.entry.now) r.served.items r.loops.items r.loop_seats.items) }
            ensures workers_count { IfOk result (λ r. length r.workers.items ≡ length workers.entry.items) }
            ensures workers { IfOk result (λ r. EachPair (WorkerEnds J.ticket board.entry.now claims.entry.now) 0 r.workers.items r.seats.items) }
        { run_in(scope, service, plan, board, claims, workers, loops) },
    )
}

/// The same within a scope.
fn run_in<
    's,
    R: Threads + Wait + Sync,
    M: Fn(Task) -> Result<J, AllocError> + Sync,
    J: Job + Send,
    W: Watch + Sync,
    E,
>(
    scope: &Scope<'s, E>,
    service: &'s Service<'s, R, M, W>,
    plan: &'s ServicePlan,
    board: &'s Board<J>,
    claims: &'s Claims,
    workers: Vec<WorkerPlace<'s, J>>,
    loops: Vec<LoopPlace<'s, J>>,
) -> Result<ThreadsEnded<J>, AllocError>
    requires make { M.IsAlwaysCallable service.now.make.now }
    requires sync { IsSync R.row × IsSync M.row × IsSync W.row }
    requires workers { EachDown (λ w p. (p.board.now ≡ board.now) × (p.claims.now ≡ claims.now) × (p.seat.worker_no ≡ w)) (length workers.items) workers.items }
    requires loops { EachDown (λ k p. (p.board.now ≡ board.now) × (p.claims.now ≡ claims.now) × (p.seat.loop_no ≡ k)) (length loops.items) loops.items }
    ensures loops_count { IfOk result (λ r. length r.served.items ≡ length loops.entry.items) }
    ensures loops { IfOk result (λ r. EachLoopEnds J.ticket board.now claims.now.id (planned plan.now) r.served.items r.loops.items r.loop_seats.items) }
    ensures workers_count { IfOk result (λ r. length r.workers.items ≡ length workers.entry.items) }
    ensures workers { IfOk result (λ r. EachPair (WorkerEnds J.ticket board.now claims.now) 0 r.workers.items r.seats.items) }
{
    let mut crew = Vec::with_capacity(plan.alloc, workers.len())?;
    let mut passes = Vec::with_capacity(plan.alloc, workers.len())?;
    let mut seats = Vec::with_capacity(plan.alloc, workers.len())?;
    let outcome = match start_workers(scope, service, board, claims, workers, &mut crew) {
        Ok(()) => run_loops(scope, service, plan, board, claims, loops),
        Err(AllocError) => Err(AllocError),
    };
    board.close();
    let LoopsEnded {
        served,
        passes: loops,
        seats: loop_seats,
    } = outcome?;
    join_workers(service.rt, board, claims, crew, &mut passes, &mut seats);
    Ok(ThreadsEnded {
        served,
        loops,
        loop_seats,
        workers: passes,
        seats,
    })
}

/// Runs the loops, and waits until all that were started have ended.
fn run_loops<
    's,
    R: Threads + Wait + Sync,
    M: Fn(Task) -> Result<J, AllocError> + Sync,
    J: Job + Send,
    W: Watch + Sync,
    E,
>(
    scope: &Scope<'s, E>,
    service: &'s Service<'s, R, M, W>,
    plan: &'s ServicePlan,
    board: &Board<J>,
    claims: &Claims,
    places: Vec<LoopPlace<'s, J>>,
) -> Result<LoopsEnded<J>, AllocError>
    requires make { M.IsAlwaysCallable service.now.make.now }
    requires sync { IsSync R.row × IsSync M.row × IsSync W.row }
    requires each { EachDown (λ k p. (p.board.now ≡ board.now) × (p.claims.now ≡ claims.now) × (p.seat.loop_no ≡ k)) (length places.items) places.items }
    ensures count { IfOk result (λ r. length r.served.items ≡ length places.entry.items) }
    ensures each { IfOk result (λ r. EachLoopEnds J.ticket board.now claims.now.id (planned plan.now) r.served.items r.passes.items r.seats.items) }
{
    let mut started = Vec::with_capacity(plan.alloc, places.len())?;
    let mut ended = LoopsEnded {
        served: Vec::with_capacity(plan.alloc, places.len())?,
        passes: Vec::with_capacity(plan.alloc, places.len())?,
        seats: Vec::with_capacity(plan.alloc, places.len())?,
    };
    let starting = start_loops(scope, service, plan, board, claims, places, &mut started);
    let ending = join_loops(service.rt, plan, board, claims, started, &mut ended);
    starting?;
    ending?;
    Ok(ended)
}

/// A thread for each loop, the first loop's first, until memory runs out.
fn start_loops<
    's,
    R: Wait + Sync,
    M: Fn(Task) -> Result<J, AllocError> + Sync,
    J: Job + Send,
    W: Watch + Sync,
    E,
>(
    scope: &Scope<'s, E>,
    service: &'s Service<'s, R, M, W>,
    plan: &'s ServicePlan,
    board: &Board<J>,
    claims: &Claims,
    mut places: Vec<LoopPlace<'s, J>>,
    started: &mut Vec<LoopHandle<'s, J>>,
) -> Result<(), AllocError>
    requires make { M.IsAlwaysCallable service.now.make.now }
    requires sync { IsSync R.row × IsSync M.row × IsSync W.row }
    requires room { length places.items ≤ vec_capacity started.old }
    requires none { started.old.items ≡ [] }
    requires each { EachDown (λ k p. (p.board.now ≡ board.now) × (p.claims.now ≡ claims.now) × (p.seat.loop_no ≡ k)) (length places.items) places.items }
    ensures count { OnOk result (length started.new.items ≡ length places.entry.items) }
    ensures at_most { length started.new.items ≤ length places.entry.items }
    ensures promised { EachFrom (λ k h. IsThreadOf plan.now board.now claims.now k h.promise) 0 started.new.items }
{
    while let Some(place) = places.pop() {
        let thread = start_loop(scope, service, plan, place)?;
        started.push_reserved(thread);
    }
    Ok(())
}

/// A thread for a loop, unless memory ran out.
fn start_loop<
    's,
    R: Wait + Sync,
    M: Fn(Task) -> Result<J, AllocError> + Sync,
    J: Job + Send,
    W: Watch + Sync,
    E,
>(
    scope: &Scope<'s, E>,
    service: &'s Service<'s, R, M, W>,
    plan: &'s ServicePlan,
    place: LoopPlace<'s, J>,
) -> Result<LoopHandle<'s, J>, AllocError>
    requires make { M.IsAlwaysCallable service.now.make.now }
    requires sync { IsSync R.row × IsSync M.row × IsSync W.row }
    ensures { IfOk result (λ h. IsThreadOf plan.now place.entry.board.now place.entry.claims.now place.entry.seat.loop_no h.promise) }
{
    if plan.ran_out() {
        return Err(AllocError);
    }
    let (board, claims) = (place.board, place.claims);
    let loop_no = place.seat.loop_no();
    let thread = scope.spawn_with(
        ThreadOfLoop {
            plan,
            board,
            claims,
            loop_no,
        },
        move || -> LoopResult<J>
            requires make { M.IsAlwaysCallable service.now.make.now }
            requires sync { IsSync R.row × IsSync M.row × IsSync W.row }
            ensures { IfOk result (λ r. LoopEnds J.ticket place.entry.board.now place.entry.claims.now.id (planned plan.entry.now place.entry.seat.loop_no) r.0 r.1 r.2) }
        { plan.run(service, place) },
    )?;
    Ok(thread)
}

/// Waits for each thread. What their loops did with their passes, unless one of them found no memory.
fn join_loops<'s, R: Threads, J: Job>(
    rt: &R,
    plan: &'s ServicePlan,
    board: &Board<J>,
    claims: &Claims,
    started: Vec<LoopHandle<'s, J>>,
    ended: &mut LoopsEnded<J>,
) -> Result<(), AllocError>
    requires room { (length started.items ≤ vec_capacity ended.old.served) × (length started.items ≤ vec_capacity ended.old.passes) × (length started.items ≤ vec_capacity ended.old.seats) }
    requires none { (ended.old.served.items ≡ []) × (ended.old.passes.items ≡ []) × (ended.old.seats.items ≡ []) }
    requires promised { EachFrom (λ k h. IsThreadOf plan.now board.now claims.now k h.promise) 0 started.items }
    ensures count { OnOk result (length ended.new.served.items ≡ length started.entry.items) }
    ensures each { OnOk result (EachLoopEnds J.ticket board.now claims.now.id (planned plan.now) ended.new.served.items ended.new.passes.items ended.new.seats.items) }
{
    let mut ending = Ok(());
    for thread in started {
        match thread.join(rt) {
            Ok((one, pass, seat)) => {
                ended.served.push_reserved(one);
                ended.passes.push_reserved(pass);
                ended.seats.push_reserved(seat);
            }
            Err(AllocError) => ending = Err(AllocError),
        }
    }
    ending
}
