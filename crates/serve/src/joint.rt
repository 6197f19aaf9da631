// The calls of the crate, and what all threads of a run together give back.

ghost use Rattle.std.specs.Prelude.{◌≡◌, ◌+◌, length, IfOk};
ghost use Rattle.std.specs.Arc.{arc_value};
ghost use Rattle.claims.specs.Views.{AreNewLoops, AreNewWorkers, new_crew_view};
ghost use Rattle.board.specs.Boards.{IsNewGathering};
ghost use Rattle.serve.specs.Answers.{EachServed};
ghost use Rattle.serve.specs.Histories.{setting_at};
ghost use Rattle.serve.specs.Inner.Ends.{EachLoopEnds, WorkerEnds};
ghost use Rattle.serve.specs.Inner.Places.{EachPair};
ghost use Rattle.serve.specs.Inner.Promises.{planned};
ghost use Rattle.serve.specs.Joint.{JointRun};

use crate::crew::{gather_seats, settle_loops};
use crate::job::Job;
use crate::place::places;
use crate::plan::ServicePlan;
use crate::rooms::Rooms;
use crate::served::Served;
use crate::service::Service;
use crate::serving::Serving;
use crate::task::Task;
use crate::threads::{ThreadsEnded, run_all};
use crate::watch::{Nobody, Watch};
use board::{Board, Gathering};
use claims::{Claims, CrewSeat, LoopSeat, NewClaims, WorkerSeat};
use imports::Linked;
use std::alloc::{AllocError, Global};
use std::sync::{Arc, Wait};
use std::thread::Threads;

/// What a run of loops and workers gives back.
#[derive(Drop)]
pub struct JointlyServed {
    /// What each loop did.
    pub served: Vec<Served>,
    /// The seats of all workers, gathered in one.
    pub crew: WorkerSeat,
}

/// Runs loops of the module and workers, each in a thread of its own, until all loops have ended. What each loop did, in
/// the order of their numbers: it has a history from its opening, over its seats, in which its callbacks emitted just
/// the answer's values, and at whose end it has ended as the answer says. `make` makes the job of an order,
/// with the order's ticket: one of another ticket is dropped, and its request stays outstanding,
/// so `serve` may never return.
///
/// If memory is refused, no further thread is started and a loop that it concerns ends; the error comes once all
/// threads have ended.
pub fn serve<R: Threads + Wait + Sync, M: Fn(Task) -> Result<J, AllocError> + Sync, J: Job + Send>(
    rt: &R,
    alloc: Global,
    linked: Arc<Linked>,
    serving: Serving,
    make: &M,
) -> Result<Vec<Served>, AllocError>
    requires make { M.IsAlwaysCallable make.now }
    ensures count { IfOk result (λ served. length served.items ≡ serving.loops) }
    ensures each { IfOk result (λ served. EachServed (arc_value linked) serving served.items) }
{
    serve_watched(rt, alloc, linked, serving, make, &Nobody)
}

/// Serves as `serve` does, and reports to `watch` what the loops and the workers do, as they do it.
pub fn serve_watched<
    'a,
    R: Threads + Wait + Sync,
    M: Fn(Task) -> Result<J, AllocError> + Sync,
    J: Job + Send,
    W: Watch + Sync,
>(
    rt: &'a R,
    alloc: Global,
    linked: Arc<Linked>,
    serving: Serving,
    make: &'a M,
    watch: &'a W,
) -> Result<Vec<Served>, AllocError>
    requires make { M.IsAlwaysCallable make.now }
    ensures count { IfOk result (λ served. length served.items ≡ serving.loops) }
    ensures each { IfOk result (λ served. EachServed (arc_value linked) serving served.items) }
{
    let JointlyServed { served, crew: _ } = serve_joint(rt, alloc, linked, serving, make, watch)?;
    Ok(served)
}

/// Serves as `serve_watched` does, and gives back the seats of the workers too, which know what was started. So the contract
/// speaks of all threads together: what loops handed out and were offered, and what workers took, started and put.
pub fn serve_joint<
    'a,
    R: Threads + Wait + Sync,
    M: Fn(Task) -> Result<J, AllocError> + Sync,
    J: Job + Send,
    W: Watch + Sync,
>(
    rt: &'a R,
    alloc: Global,
    linked: Arc<Linked>,
    serving: Serving,
    make: &'a M,
    watch: &'a W,
) -> Result<JointlyServed, AllocError>
    requires make { M.IsAlwaysCallable make.now }
    ensures count { IfOk result (λ all. length all.served.items ≡ serving.loops) }
    ensures each { IfOk result (λ all. EachServed (arc_value linked) serving all.served.items) }
    ensures joint { IfOk result (λ all. ∥ JointRun (arc_value linked) serving all.served.items all.crew ∥₁) }
{
    let plan = ServicePlan::new(alloc, linked, serving);
    let rooms = Arc::new(alloc, Rooms::new(alloc, serving.workers)?)?;
    let service = Service {
        rt,
        make,
        watch,
        rooms: &rooms,
    };
    with_claims(&service, &plan)
}

/// Makes the claims, then the board and the threads.
fn with_claims<
    R: Threads + Wait + Sync,
    M: Fn(Task) -> Result<J, AllocError> + Sync,
    J: Job + Send,
    W: Watch + Sync,
>(service: &Service<'_, R, M, W>, plan: &ServicePlan) -> Result<JointlyServed, AllocError>
    requires make { M.IsAlwaysCallable service.now.make.now }
    ensures count { IfOk result (λ all. length all.served.items ≡ plan.now.serving.loops) }
    ensures each { IfOk result (λ all. EachServed (arc_value plan.now.linked) plan.now.serving all.served.items) }
    ensures joint { IfOk result (λ all. ∥ JointRun (arc_value plan.now.linked) plan.now.serving all.served.items all.crew ∥₁) }
{
    let (new, crew) = Claims::with_crew(plan.alloc, plan.serving.loops, plan.serving.workers)?;
    let NewClaims {
        claims,
        loop_seats,
        worker_seats,
    } = new;
    with_board(service, plan, &claims, crew, loop_seats, worker_seats)
}

/// With a board too.
fn with_board<
    R: Threads + Wait + Sync,
    M: Fn(Task) -> Result<J, AllocError> + Sync,
    J: Job + Send,
    W: Watch + Sync,
>(
    service: &Service<'_, R, M, W>,
    plan: &ServicePlan,
    claims: &Claims,
    crew: CrewSeat,
    loop_seats: Vec<LoopSeat>,
    worker_seats: Vec<WorkerSeat>,
) -> Result<JointlyServed, AllocError>
    requires make { M.IsAlwaysCallable service.now.make.now }
    requires claims { claims.now.loops ≡ plan.now.serving.loops }
    requires crew { crew ≡ new_crew_view claims.now.id plan.now.serving.workers }
    requires loop_seats { AreNewLoops claims.now.id plan.now.serving.loops loop_seats.items }
    requires worker_seats { AreNewWorkers claims.now.id plan.now.serving.workers worker_seats.items }
    ensures count { IfOk result (λ all. length all.served.items ≡ plan.now.serving.loops) }
    ensures each { IfOk result (λ all. EachServed (arc_value plan.now.linked) plan.now.serving all.served.items) }
    ensures joint { IfOk result (λ all. ∥ JointRun (arc_value plan.now.linked) plan.now.serving all.served.items all.crew ∥₁) }
{
    let count = (plan.serving.loops + plan.serving.workers) as usize;
    let (board, passes, gathering) = Board::with_gathering(plan.alloc, plan.serving.loops, count)?;
    let (workers, loops) = places(plan.alloc, &board, passes, claims, worker_seats, loop_seats)?;
    let ended = run_all(service, plan, &board, claims, workers, loops)?;
    gathered(plan, &board, claims, gathering, crew, ended)
}

/// Takes in all passes and all seats, in the order of their numbers.
fn gathered<J: Job>(
    plan: &ServicePlan,
    board: &Board<J>,
    claims: &Claims,
    gathering: Gathering<J>,
    crew: CrewSeat,
    ended: ThreadsEnded<J>,
) -> Result<JointlyServed, AllocError>
    requires loops { (length board.now.replies ≡ plan.now.serving.loops) × (claims.now.loops ≡ plan.now.serving.loops) }
    requires gathering { IsNewGathering board.now (plan.now.serving.loops + plan.now.serving.workers) gathering }
    requires crew { crew ≡ new_crew_view claims.now.id plan.now.serving.workers }
    requires loops_count { length ended.served.items ≡ plan.now.serving.loops }
    requires loops_end { EachLoopEnds J.ticket board.now claims.now.id (planned plan.now) ended.served.items ended.loops.items ended.loop_seats.items }
    requires workers_count { length ended.workers.items ≡ plan.now.serving.workers }
    requires workers_end { EachPair (WorkerEnds J.ticket board.now claims.now) 0 ended.workers.items ended.seats.items }
    ensures count { IfOk result (λ all. length all.served.items ≡ plan.now.serving.loops) }
    ensures each { IfOk result (λ all. EachServed (arc_value plan.now.linked) plan.now.serving all.served.items) }
    ensures joint { IfOk result (λ all. ∥ JointRun (arc_value plan.now.linked) plan.now.serving all.served.items all.crew ∥₁) }
{
    let ThreadsEnded {
        served,
        loops: mut passes,
        loop_seats,
        mut workers,
        seats,
    } = ended;
    passes.append(&mut workers)?;
    board.gather_all(gathering, passes);
    let crew = settle_loops(claims, gather_seats(claims, crew, seats), loop_seats);
    Ok(JointlyServed { served, crew })
}
