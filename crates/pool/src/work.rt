// One job's way, and a worker's.

ghost use Rattle.std.specs.Prelude.{◌≡◌, ◌<◌, length};
ghost use Rattle.board.specs.Boards.{IsPassOf};
ghost use Rattle.claims.specs.Views.{EachOnce};
ghost use Rattle.pool.specs.Work.{DidSo};
ghost use Rattle.pool.specs.Turns.{TookSome, PutsOrNot};

use crate::gate::{Gate, Point};
use board::{Board, Event, Pass};
use claims::{Claims, Ticket, WorkerSeat};
use order::Reply;
use std::sync::Wait;

/// What became of a job.
#[derive(Drop)]
pub enum WorkerDid {
    /// No job was there.
    Nothing,
    /// Its request could not be started, and it was dropped uncalled.
    Dropped(Ticket),
    /// It was called, and its reply was put.
    Replied(Ticket),
    /// It was called, and this is its reply, which the board refused.
    Stuck(Reply),
}

/// Takes one job at most: starts its ticket, calls it and puts its reply, or drops it uncalled.
pub fn work_one<G: Gate, R: Wait>(
    rt: &R,
    board: &Board,
    pass: &mut Pass,
    claims: &Claims,
    seat: &mut WorkerSeat,
    gate: &G,
) -> WorkerDid
    requires own { IsPassOf board.now pass.old × (seat.old.claims ≡ claims.now.id) }
    requires loops { length board.now.replies ≡ claims.now.loops }
    ensures own { IsPassOf board.now pass.new × (seat.new.claims ≡ seat.old.claims) }
    ensures did { DidSo (λ job. job.ticket) board.now pass.old pass.new seat.old seat.new result }
    ensures once { EachOnce seat.old.started → EachOnce seat.new.started }
{
    let Some(job) = board.take(rt, pass) else {
        return WorkerDid::Nothing;
    };
    let ticket = job.ticket;
    gate.at(Point::Taken, ticket);
    if !claims.start(seat, ticket) {
        gate.drops(ticket);
        return WorkerDid::Dropped(ticket);
    }
    gate.at(Point::Started, ticket);
    let reply = job.call(seat);
    gate.replies(&reply);
    gate.at(Point::Finished, ticket);
    match board.put_reply(rt, pass, reply) {
        Ok(()) => {
            gate.at(Point::Replied, ticket);
            WorkerDid::Replied(ticket)
        }
        Err(reply) => WorkerDid::Stuck(reply),
    }
}

/// Works until the board is found closed, with no job in hand, and sleeps while no job is there. A reply that the board
/// refuses is put again, each time that one of its loop is collected, until that works or the board is closed.
///
/// All that it did with its pass and its seat are its turns: each job that it took it started, called, and put its reply, once, or gave the
/// reply up (by tests, only as the board was closed), or dropped it uncalled.
pub fn work_until_closed<G: Gate, R: Wait>(
    rt: &R,
    board: &Board,
    pass: &mut Pass,
    claims: &Claims,
    seat: &mut WorkerSeat,
    gate: &G,
)
    requires own { IsPassOf board.now pass.old × (seat.old.claims ≡ claims.now.id) }
    requires loops { length board.now.replies ≡ claims.now.loops }
    ensures own { IsPassOf board.now pass.new × (seat.new.claims ≡ seat.old.claims) }
    ensures turns { TookSome (λ job. job.ticket) pass.old pass.new seat.old seat.new }
    ensures once { EachOnce seat.old.started → EachOnce seat.new.started }
{
    for _ in rt.forever() {
        let heard = board.listen(Event::Posted);
        if board.is_closed() {
            return;
        }
        match work_one(rt, board, pass, claims, seat, gate) {
            WorkerDid::Nothing => board.wait(rt, heard),
            WorkerDid::Stuck(reply) => put_until_closed(rt, board, pass, gate, reply),
            WorkerDid::Dropped(_) | WorkerDid::Replied(_) => {}
        }
    }
}

/// Puts the reply, or gives it up where the board is closed.
fn put_until_closed<G: Gate, R: Wait>(
    rt: &R,
    board: &Board,
    pass: &mut Pass,
    gate: &G,
    mut reply: Reply,
)
    requires own { IsPassOf board.now pass.old }
    requires there { reply.order.loop_no < length board.now.replies }
    ensures own { IsPassOf board.now pass.new }
    ensures put { PutsOrNot pass.old pass.new reply }
{
    let ticket = Ticket {
        loop_no: reply.order.loop_no,
        slot: reply.order.slot,
        request: reply.order.request,
    };
    for _ in rt.forever() {
        let heard = board.listen(Event::Collected(ticket.loop_no));
        match board.put_reply(rt, pass, reply) {
            Ok(()) => {
                gate.at(Point::Replied, ticket);
                return;
            }
            Err(back) => reply = back,
        }
        if board.is_closed() {
            return;
        }
        board.wait(rt, heard);
    }
}
