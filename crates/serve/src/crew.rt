// The threads of the workers, and what their seats know at the end.

ghost use Rattle.std.specs.Prelude.{◌≡◌, ◌<◌, ◌≤◌, ◌+◌, [], All, flat_map, length, vec_capacity, IfOk, OnOk};
ghost use Rattle.std.specs.Thread.{IsSync};
ghost use Rattle.claims.specs.Views.{EachOnce, new_crew_view};
ghost use Rattle.serve.specs.Inner.Ends.{IsUnjoined, WorkerEnds};
ghost use Rattle.serve.specs.Inner.Places.{EachFrom, EachDown, EachPair};
ghost use Rattle.serve.specs.Inner.Promises.{IsWorkerThreadOf};
ghost use Rattle.serve.specs.Joint.{IsSettledWith};

use crate::job::Job;
use crate::place::WorkerPlace;
use crate::service::Service;
use crate::watch::Watch;
use board::{Board, Pass};
use claims::{Claims, CrewSeat, LoopSeat, WorkerSeat};
use std::alloc::AllocError;
use std::sync::Wait;
use std::thread::{Promise, PromisedHandle, Scope, Threads};

/// What comes of a worker's thread: its pass and its seat.
pub type WorkerResult<J> = (Pass<J>, WorkerSeat);

/// That what comes of a thread is said of this worker.
#[derive(Drop)]
pub struct ThreadOfWorker<'a, J> {
    pub board: &'a Board<J>,
    pub claims: &'a Claims,
    pub worker_no: u32,
}

impl<'a, J: Job> Promise<WorkerResult<J>> for ThreadOfWorker<'a, J> {
    ghost kept_by = { λ p r. WorkerEnds J.ticket p.board.now p.claims.now p.worker_no r.0 r.1 };
}

/// The handle of a worker's thread.
pub type WorkerHandle<'s, J> = PromisedHandle<WorkerResult<J>, ThreadOfWorker<'s, J>>;

/// A thread for each worker, the first worker's first, until memory runs out.
pub fn start_workers<'s, R: Wait + Sync, M: Sync, J: Job + Send, W: Watch + Sync, E>(
    scope: &Scope<'s, E>,
    service: &'s Service<'s, R, M, W>,
    board: &Board<J>,
    claims: &Claims,
    mut places: Vec<WorkerPlace<'s, J>>,
    started: &mut Vec<WorkerHandle<'s, J>>,
) -> Result<(), AllocError>
    requires sync { IsSync R.row × IsSync M.row × IsSync W.row }
    requires room { length places.items ≤ vec_capacity started.old }
    requires none { started.old.items ≡ [] }
    requires each { EachDown (λ w p. (p.board.now ≡ board.now) × (p.claims.now ≡ claims.now) × (p.seat.worker_no ≡ w)) (length places.items) places.items }
    ensures count { OnOk result (length started.new.items ≡ length places.entry.items) }
    ensures promised { EachFrom (λ w h. IsWorkerThreadOf board.now claims.now w h.promise) 0 started.new.items }
{
    while let Some(place) = places.pop() {
        let thread = start_worker(scope, service, place)?;
        started.push_reserved(thread);
    }
    Ok(())
}

/// A thread for a worker.
fn start_worker<'s, R: Wait + Sync, M: Sync, J: Job + Send, W: Watch + Sync, E>(
    scope: &Scope<'s, E>,
    service: &'s Service<'s, R, M, W>,
    place: WorkerPlace<'s, J>,
) -> Result<WorkerHandle<'s, J>, AllocError>
    requires sync { IsSync R.row × IsSync M.row × IsSync W.row }
    ensures { IfOk result (λ h. IsWorkerThreadOf place.entry.board.now place.entry.claims.now place.entry.seat.worker_no h.promise) }
{
    let (board, claims) = (place.board, place.claims);
    let worker_no = place.seat.worker_no();
    let thread = scope.spawn_with(
        ThreadOfWorker {
            board,
            claims,
            worker_no,
        },
        move || -> WorkerResult<J>
            requires sync { IsSync R.row × IsSync M.row × IsSync W.row }
            ensures { WorkerEnds J.ticket place.entry.board.now place.entry.claims.now place.entry.seat.worker_no result.0 result.1 }
        { place.work(service.rt, service.watch) },
    )?;
    Ok(thread)
}

/// Waits for each worker. Its pass and its seat.
pub fn join_workers<'s, R: Threads, J: Job>(
    rt: &R,
    board: &Board<J>,
    claims: &Claims,
    started: Vec<WorkerHandle<'s, J>>,
    passes: &mut Vec<Pass<J>>,
    seats: &mut Vec<WorkerSeat>,
)
    requires room { (length started.items ≤ vec_capacity passes.old) × (length started.items ≤ vec_capacity seats.old) }
    requires none { (passes.old.items ≡ []) × (seats.old.items ≡ []) }
    requires promised { EachFrom (λ w h. IsWorkerThreadOf board.now claims.now w h.promise) 0 started.items }
    ensures count { length passes.new.items ≡ length started.entry.items }
    ensures each { EachPair (WorkerEnds J.ticket board.now claims.now) 0 passes.new.items seats.new.items }
{
    for thread in started {
        let (pass, seat) = thread.join(rt);
        passes.push_reserved(pass);
        seats.push_reserved(seat);
    }
}

/// Takes the seats of all workers into the crew's, in order.
pub fn gather_seats(claims: &Claims, mut crew: CrewSeat, seats: Vec<WorkerSeat>) -> CrewSeat
    requires crew { crew ≡ new_crew_view claims.now.id (length seats.items) }
    requires own { All (λ s. s.claims ≡ claims.now.id) seats.items }
    ensures claims { result.claims ≡ claims.now.id }
    ensures missing { result.missing ≡ 0 }
    ensures started { result.started ≡ flat_map (λ s. s.started) seats.items }
    ensures once { EachOnce result.started }
{
    for seat in seats {
        claims.take(&mut crew, seat);
    }
    crew
}

/// Shows each loop what the workers have started, and gives their seat back.
pub fn settle_loops(claims: &Claims, mut crew: CrewSeat, mut seats: Vec<LoopSeat>) -> WorkerSeat
    requires crew { (crew.claims ≡ claims.now.id) × (crew.missing ≡ 0) }
    requires own { All (λ s. IsUnjoined claims.now.id s) seats.items }
    ensures claims { result.claims ≡ claims.now.id }
    ensures started { result.started ≡ crew.started }
    ensures settled { All (λ s. IsSettledWith crew.started s) seats.items }
{
    while let Some(mut seat) = seats.pop() {
        crew = claims.settle(crew, &mut seat);
    }
    claims.as_worker(crew)
}
