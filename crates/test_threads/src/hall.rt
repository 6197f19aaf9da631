// A hall is a board and claims for one loop and some workers. Its gear is the seats and passes that come with it: the loop's
// are in its side, a worker's in a side of its own, and the spares are those that no worker has yet.

ghost use Rattle.std.specs.Prelude.{◌≡◌, ◌<◌, ◌≤◌, length, All, IfOk, IfSome};
ghost use Rattle.limits.specs.declared.TheConstants.{MAX_WORKERS};
ghost use Rattle.board.specs.Boards.{IsPassOf};
ghost use Rattle.claims.specs.Views.{new_loop_view};

use crate::gates::UntilClosed;
use crate::hands::BoardHand;
use board::{Board, JobBox, Pass};
use claims::{Claims, LoopSeat, NewClaims, Ticket, WorkerSeat};
use limits::MAX_REQUESTS;
use order::Reply;
use pool::{Gate, WorkerDid, work_one, work_until_closed};
use std::alloc::{AllocError, Global};
use std::sync::Wait;
use std::test::Fail;

/// The ticket of the loop's request, in the slots in turn.
pub fn ticket(request: u32) -> Ticket
    ensures request { (result.request ≡ request) × (result.loop_no ≡ 0) }
    ensures slot { result.slot < MAX_REQUESTS }
{
    Ticket {
        loop_no: 0,
        slot: request % MAX_REQUESTS as u32,
        request,
    }
}

/// What one loop and its workers share.
#[derive(Drop)]
pub struct Hall {
    pub board: Board,
    pub claims: Claims,
    ghost loops: { (length board.replies ≡ 1) × (claims.loops ≡ 1) },
}

/// What a new hall hands out.
#[derive(Drop)]
pub struct Gear {
    loop_pass: Pass,
    loop_seat: LoopSeat,
    passes: Vec<Pass>,
    worker_seats: Vec<WorkerSeat>,
}

/// Claims for one loop and so many workers, with their seats.
#[tactic(auto, using(crate::proofs::Crew::all_own))]
pub fn with_workers(
    alloc: Global,
    workers: u32,
) -> Result<(Claims, LoopSeat, Vec<WorkerSeat>), AllocError>
    requires { workers ≤ MAX_WORKERS }
    ensures loops { IfOk result (λ m. m.0.loops ≡ 1) }
    ensures loop_seat { IfOk result (λ m. m.1 ≡ new_loop_view m.0.id 0) }
    ensures workers { IfOk result (λ m. All (λ s. s.claims ≡ m.0.id) m.2.items) }
{
    let NewClaims {
        claims,
        mut loop_seats,
        worker_seats,
    } = Claims::new(alloc, 1, workers)?;
    let Some(loop_seat) = loop_seats.pop() else {
        unreachable!()
    };
    Ok((claims, loop_seat, worker_seats))
}

fn with_passes(alloc: Global, workers: u32) -> Result<(Board, Pass, Vec<Pass>), AllocError>
    requires { workers ≤ MAX_WORKERS }
    ensures loops { IfOk result (λ m. length m.0.replies ≡ 1) }
    ensures pass { IfOk result (λ m. IsPassOf m.0 m.1) }
    ensures passes { IfOk result (λ m. All (IsPassOf m.0) m.2.items) }
{
    let (board, mut passes) = Board::new(alloc, 1, workers as usize + 1)?;
    let Some(pass) = passes.pop() else {
        unreachable!()
    };
    Ok((board, pass, passes))
}

impl Hall {
    /// A hall with one pass for the loop and one for each worker.
    pub fn new(alloc: Global, workers: u32) -> Result<(Hall, Gear), AllocError>
        requires { workers ≤ MAX_WORKERS }
        ensures loop_pass { IfOk result (λ h. IsPassOf h.0.board h.1.loop_pass) }
        ensures loop_seat { IfOk result (λ h. h.1.loop_seat ≡ new_loop_view h.0.claims.id 0) }
        ensures passes { IfOk result (λ h. All (IsPassOf h.0.board) h.1.passes.items) }
        ensures worker_seats { IfOk result (λ h. All (λ s. s.claims ≡ h.0.claims.id) h.1.worker_seats.items) }
    {
        let (claims, loop_seat, worker_seats) = with_workers(alloc, workers)?;
        let (board, loop_pass, passes) = with_passes(alloc, workers)?;
        let gear = Gear {
            loop_pass,
            loop_seat,
            passes,
            worker_seats,
        };
        Ok((Hall { board, claims }, gear))
    }

    /// The loop's side, where its requests have these jobs, and what is left for the workers.
    pub fn settle<'a>(&'a self, jobs: Vec<JobBox>, gear: Gear) -> (LoopSide<'a>, Spares<'a>)
        requires loop_pass { IsPassOf self.now.board gear.loop_pass }
        requires loop_seat { gear.loop_seat ≡ new_loop_view self.now.claims.id 0 }
        requires passes { All (IsPassOf self.now.board) gear.passes.items }
        requires worker_seats { All (λ s. s.claims ≡ self.now.claims.id) gear.worker_seats.items }
    {
        let Gear {
            loop_pass,
            loop_seat,
            passes,
            worker_seats,
        } = gear;
        let side = LoopSide {
            hand: BoardHand {
                board: &self.board,
                pass: loop_pass,
            },
            claims: &self.claims,
            seat: loop_seat,
            jobs,
            next: 1,
            kept: None,
        };
        let spares = Spares {
            hall: self,
            passes,
            seats: worker_seats,
        };
        (side, spares)
    }
}

/// The passes and seats that no worker has yet.
#[derive(Drop)]
pub struct Spares<'a> {
    hall: &'a Hall,
    passes: Vec<Pass>,
    seats: Vec<WorkerSeat>,
    ghost passes_own: { All (IsPassOf hall.now.board) passes.items },
    ghost seats_own: { All (λ s. s.claims ≡ hall.now.claims.id) seats.items },
}

impl<'a> Spares<'a> {
    /// The next worker's side.
    pub fn worker(&mut self) -> Result<WorkerSide<'a>, AllocError> {
        let Some(pass) = self.passes.pop() else {
            return Err(AllocError);
        };
        let Some(seat) = self.seats.pop() else {
            return Err(AllocError);
        };
        Ok(WorkerSide {
            board: &self.hall.board,
            claims: &self.hall.claims,
            pass,
            seat,
        })
    }
}

/// What a worker did in one turn.
#[derive(Clone, Copy, Debug, PartialEq)]
pub enum End {
    Nothing,
    Dropped(Ticket),
    Replied(Ticket),
    Stuck(u32),
}

fn end_of(did: WorkerDid) -> End {
    match did {
        WorkerDid::Nothing => End::Nothing,
        WorkerDid::Dropped(ticket) => End::Dropped(ticket),
        WorkerDid::Replied(ticket) => End::Replied(ticket),
        WorkerDid::Stuck(reply) => End::Stuck(reply.order.request),
    }
}

/// A worker's part of a hall. It refers to the board and the claims, not to their hall: threads hold it, and each type that is in between makes
/// `Send` of what they hold longer to show.
#[derive(Drop)]
pub struct WorkerSide<'a> {
    board: &'a Board,
    claims: &'a Claims,
    pass: Pass,
    seat: WorkerSeat,
    ghost pass_own: { IsPassOf board.now pass },
    ghost seat_own: { seat.claims ≡ claims.now.id },
    ghost loops: { length board.now.replies ≡ claims.now.loops },
}

impl<'a> WorkerSide<'a> {
    pub fn turn<G: Gate, R: Wait>(&mut self, rt: &R, gate: &G) -> End {
        end_of(work_one(
            rt,
            self.board,
            &mut self.pass,
            self.claims,
            &mut self.seat,
            gate,
        ))
    }

    /// Works until the board is closed. Until then this request is held once it is started; no request is 0.
    pub fn work_until_closed<R: Wait>(self, rt: &R, held: u32) {
        let WorkerSide {
            board,
            claims,
            mut pass,
            mut seat,
        } = self;
        let gate = UntilClosed {
            board,
            request: held,
        };
        work_until_closed(rt, board, &mut pass, claims, &mut seat, &gate);
    }
}

/// The loop's part of a hall. The loop opens its requests in the slots in turn, and pops the job that it posts. It keeps one that was refused.
#[derive(Drop)]
pub struct LoopSide<'a> {
    hand: BoardHand<'a>,
    claims: &'a Claims,
    seat: LoopSeat,
    jobs: Vec<JobBox>,
    next: u32,
    kept: Option<JobBox>,
    ghost seat_own: { (seat.claims ≡ claims.now.id) × (seat.loop_no ≡ 0) },
    ghost rising: { (0 < next) × All (λ c. c.1 < next) seat.opened },
}

/// The largest request that a loop may open here.
const LAST: u32 = 1000;

impl<'a> LoopSide<'a> {
    /// Opens the next request. Its number.
    #[tactic(auto, using(crate::proofs::RequestsRise::below_next))]
    pub fn open(&mut self) -> Result<u32, Fail> {
        let request = self.next;
        if request > LAST {
            return Err(Fail::from("no number left"));
        }
        let slot = ticket(request).slot;
        self.claims.open(&mut self.seat, slot, request);
        self.next = request + 1;
        Ok(request)
    }

    pub fn cancel(&mut self, request: u32) -> bool {
        self.claims.cancel(&mut self.seat, ticket(request))
    }

    /// Posts the next job. Whether the board took it.
    pub fn post<R: Wait>(&mut self, rt: &R) -> bool {
        let Some(job) = self.jobs.pop() else {
            return false;
        };
        let Some(back) = self.hand.offer(rt, job) else {
            return true;
        };
        self.kept = Some(back);
        false
    }

    /// Posts the job that was refused. Whether the board took it.
    pub fn post_kept<R: Wait>(&mut self, rt: &R) -> bool {
        let Some(job) = self.kept.take() else {
            return false;
        };
        self.hand.post(rt, job).is_none()
    }

    /// Puts a reply. Whether the board took it.
    pub fn put_reply<R: Wait>(&mut self, rt: &R, reply: Reply) -> bool
        requires { reply.order.loop_no ≡ 0 }
    {
        self.hand.put(rt, reply).is_none()
    }

    /// Collects a reply. Its request.
    pub fn collect<R: Wait>(&mut self, rt: &R) -> Option<u32> {
        self.hand.collect(rt)
    }

    pub fn close(&self) {
        self.hand.board.close();
    }
}
