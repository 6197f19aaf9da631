// What a loop and a worker step with: their seats and their passes.

ghost use Rattle.std.specs.Prelude.{◌≡◌, ◌<◌, ◌+◌, ◌∷◌, ◌++◌, [], length, IfOk};
ghost use Rattle.board.specs.Boards.{IsPassOf, HasNumber, IsNewPass};
ghost use Rattle.claims.specs.Views.{new_loop_view, new_worker_view};
ghost use Rattle.serve.specs.Inner.Ends.{WorkerEnds};
ghost use Rattle.serve.specs.Inner.Places.{IsPassAt, EachFrom, EachDown};

use crate::job::Job;
use crate::watch::Watch;
use board::{Board, Pass};
use claims::{Claims, LoopSeat, WorkerSeat};
use std::alloc::{AllocError, Global};
use std::sync::Wait;

/// What a worker steps with. It has done nothing yet. The passes of workers come behind those of loops.
#[derive(Drop)]
pub struct WorkerPlace<'a, J> {
    /// The board.
    pub board: &'a Board<J>,
    /// Its pass on the board.
    pub pass: Pass<J>,
    /// The claims.
    pub claims: &'a Claims,
    /// Its seat of the claims.
    pub seat: WorkerSeat,
    pub ghost of_board: { IsPassOf board.now pass },
    pub ghost new: { ∥ IsNewPass board.now pass ∥₁ },
    pub ghost number: { HasNumber (claims.now.loops + seat.worker_no + 1) pass },
    pub ghost of_claims: { seat ≡ new_worker_view claims.now.id seat.worker_no },
    pub ghost loops: { length board.now.replies ≡ claims.now.loops },
}

/// What a loop steps with. It has done nothing yet.
#[derive(Drop)]
pub struct LoopPlace<'a, J> {
    /// The board.
    pub board: &'a Board<J>,
    /// Its pass on the board.
    pub pass: Pass<J>,
    /// The claims.
    pub claims: &'a Claims,
    /// Its seat of the claims.
    pub seat: LoopSeat,
    pub ghost of_board: { IsPassOf board.now pass },
    pub ghost new: { ∥ IsNewPass board.now pass ∥₁ },
    pub ghost number: { HasNumber (seat.loop_no + 1) pass },
    pub ghost of_claims: { seat ≡ new_loop_view claims.now.id seat.loop_no },
    pub ghost there: { seat.loop_no < length board.now.replies },
}

impl<J: Job> WorkerPlace<'_, J> {
    /// Works until the board is closed, and reports what is done. The pass and the seat, which say what was done with them.
    pub fn work<R: Wait, W: Watch>(self, rt: &R, watch: &W) -> (Pass<J>, WorkerSeat)
        ensures { WorkerEnds J.ticket self.entry.board.now self.entry.claims.now self.entry.seat.worker_no result.0 result.1 }
    {
        let WorkerPlace {
            board,
            mut pass,
            claims,
            mut seat,
        } = self;
        J::work(rt, board, &mut pass, claims, &mut seat, watch);
        (pass, seat)
    }
}

/// The last of the passes, of which there is one.
fn take_pass<J>(passes: &mut Vec<Pass<J>>) -> Pass<J>
    requires { 0 < length passes.old.items }
    ensures { passes.old.items ≡ passes.new.items ++ result ∷ [] }
{
    let Some(pass) = passes.pop() else {
        unreachable!()
    };
    pass
}

fn worker_place<'a, J>(
    board: &'a Board<J>,
    pass: Pass<J>,
    claims: &'a Claims,
    seat: WorkerSeat,
) -> WorkerPlace<'a, J>
    requires pass { IsPassAt board.now (claims.now.loops + seat.worker_no) pass }
    requires seat { seat ≡ new_worker_view claims.now.id seat.worker_no }
    requires loops { length board.now.replies ≡ claims.now.loops }
    ensures board { result.board.now ≡ board.now }
    ensures claims { result.claims.now ≡ claims.now }
    ensures number { result.seat.worker_no ≡ seat.worker_no }
{
    WorkerPlace {
        board,
        pass,
        claims,
        seat,
    }
}

/// A place for each worker, the last worker's first. It takes the last passes.
fn worker_places<'a, J: Drop>(
    alloc: Global,
    board: &'a Board<J>,
    passes: &mut Vec<Pass<J>>,
    claims: &'a Claims,
    mut seats: Vec<WorkerSeat>,
) -> Result<Vec<WorkerPlace<'a, J>>, AllocError>
    requires passes { EachFrom (IsPassAt board.now) 0 passes.old.items }
    requires seats { EachFrom (λ k s. s ≡ new_worker_view claims.now.id k) 0 seats.items }
    requires count { length passes.old.items ≡ claims.now.loops + length seats.items }
    requires loops { length board.now.replies ≡ claims.now.loops }
    ensures passes { IfOk result (λ _. EachFrom (IsPassAt board.now) 0 passes.new.items) }
    ensures left { IfOk result (λ _. length passes.new.items ≡ claims.now.loops) }
    ensures count { IfOk result (λ places. length places.items ≡ length seats.items) }
    ensures each { IfOk result (λ places. EachDown (λ w p. (p.board.now ≡ board.now) × (p.claims.now ≡ claims.now) × (p.seat.worker_no ≡ w)) (length places.items) places.items) }
{
    let mut places = Vec::with_capacity(alloc, seats.len())?;
    while let Some(seat) = seats.pop() {
        let pass = take_pass(passes);
        places.push(worker_place(board, pass, claims, seat))?;
    }
    Ok(places)
}

fn loop_place<'a, J>(
    board: &'a Board<J>,
    pass: Pass<J>,
    claims: &'a Claims,
    seat: LoopSeat,
) -> LoopPlace<'a, J>
    requires pass { IsPassAt board.now seat.loop_no pass }
    requires seat { seat ≡ new_loop_view claims.now.id seat.loop_no }
    requires there { seat.loop_no < length board.now.replies }
    ensures board { result.board.now ≡ board.now }
    ensures claims { result.claims.now ≡ claims.now }
    ensures number { result.seat.loop_no ≡ seat.loop_no }
{
    LoopPlace {
        board,
        pass,
        claims,
        seat,
    }
}

/// A place for each loop, the last loop's first.
fn loop_places<'a, J: Drop>(
    alloc: Global,
    board: &'a Board<J>,
    mut passes: Vec<Pass<J>>,
    claims: &'a Claims,
    mut seats: Vec<LoopSeat>,
) -> Result<Vec<LoopPlace<'a, J>>, AllocError>
    requires passes { EachFrom (IsPassAt board.now) 0 passes.items }
    requires seats { EachFrom (λ k s. s ≡ new_loop_view claims.now.id k) 0 seats.items }
    requires count { length passes.items ≡ length seats.items }
    requires loops { length board.now.replies ≡ length seats.items }
    ensures count { IfOk result (λ places. length places.items ≡ length seats.items) }
    ensures each { IfOk result (λ places. EachDown (λ k p. (p.board.now ≡ board.now) × (p.claims.now ≡ claims.now) × (p.seat.loop_no ≡ k)) (length places.items) places.items) }
{
    let mut places = Vec::with_capacity(alloc, seats.len())?;
    while let Some(seat) = seats.pop() {
        let pass = take_pass(&mut passes);
        places.push(loop_place(board, pass, claims, seat))?;
    }
    Ok(places)
}

/// A place for each worker, and one for each loop, each time the last first, since the last of a `Vec` is taken first.
pub fn places<'a, J: Drop>(
    alloc: Global,
    board: &'a Board<J>,
    mut passes: Vec<Pass<J>>,
    claims: &'a Claims,
    worker_seats: Vec<WorkerSeat>,
    loop_seats: Vec<LoopSeat>,
) -> Result<(Vec<WorkerPlace<'a, J>>, Vec<LoopPlace<'a, J>>), AllocError>
    requires passes { EachFrom (IsPassAt board.now) 0 passes.items }
    requires worker_seats { EachFrom (λ k s. s ≡ new_worker_view claims.now.id k) 0 worker_seats.items }
    requires loop_seats { EachFrom (λ k s. s ≡ new_loop_view claims.now.id k) 0 loop_seats.items }
    requires loops { (length board.now.replies ≡ claims.now.loops) × (length loop_seats.items ≡ claims.now.loops) }
    requires count { length passes.items ≡ claims.now.loops + length worker_seats.items }
    ensures workers_count { IfOk result (λ m. length m.0.items ≡ length worker_seats.items) }
    ensures workers { IfOk result (λ m. EachDown (λ w p. (p.board.now ≡ board.now) × (p.claims.now ≡ claims.now) × (p.seat.worker_no ≡ w)) (length m.0.items) m.0.items) }
    ensures loops_count { IfOk result (λ m. length m.1.items ≡ length loop_seats.items) }
    ensures loops { IfOk result (λ m. EachDown (λ k p. (p.board.now ≡ board.now) × (p.claims.now ≡ claims.now) × (p.seat.loop_no ≡ k)) (length m.1.items) m.1.items) }
{
    let workers = worker_places(alloc, board, &mut passes, claims, worker_seats)?;
    let loops = loop_places(alloc, board, passes, claims, loop_seats)?;
    Ok((workers, loops))
}
