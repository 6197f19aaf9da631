// What a worker does with jobs.

ghost use Rattle.std.specs.Prelude.{◌≡◌, length};
ghost use Rattle.board.specs.Boards.{IsPassOf};
ghost use Rattle.claims.specs.Views.{EachOnce};
ghost use Rattle.pool.specs.Turns.{TookSome};

use crate::watch::Watch;
use board::{Board, JobBox, Pass};
use claims::{Claims, Ticket, WorkerSeat};
use order::Reply;
use pool::{Gate, Point, work_until_closed};
use std::sync::Wait;

/// A job that loops post and workers call.
///
/// What makes jobs is a type parameter of what serves, and a bound on it can't name a job that is a box of a closure.
/// So what jobs it makes is a type parameter too.
pub trait Job: Drop {
    ghost use Rattle.claims.specs.declared.seats.Ticket.{Ticket};

    /// The ticket of the request that it works on.
    ghost ticket: { Self → Ticket };

    /// The ticket of the request that it works on.
    fn ticket(&self) -> Ticket
        ensures { result ≡ ticket self.now };

    /// Works on the jobs of the board until it is closed, and reports what is done with each.
    fn work<R: Wait, W: Watch>(
        rt: &R,
        board: &Board<Self>,
        pass: &mut Pass<Self>,
        claims: &Claims,
        seat: &mut WorkerSeat,
        watch: &W,
    )
        requires own { IsPassOf board.now pass.old × (seat.old.claims ≡ claims.now.id) }
        requires loops { length board.now.replies ≡ claims.now.loops }
        ensures own { IsPassOf board.now pass.new × (seat.new.claims ≡ seat.old.claims) }
        ensures turns { TookSome ticket pass.old pass.new seat.old seat.new }
        ensures once { EachOnce seat.old.started → EachOnce seat.new.started };
}

/// Tells what a worker does. It holds nobody.
#[derive(Drop)]
struct Watched<'a, R, W> {
    rt: &'a R,
    watch: &'a W,
    worker_no: u32,
}

impl<R: Wait, W: Watch> Gate for Watched<'_, R, W> {
    fn at(&self, point: Point, ticket: Ticket) {
        let (loop_no, request) = (ticket.loop_no, ticket.request);
        let (rt, worker_no) = (self.rt, self.worker_no);
        match point {
            Point::Taken => self.watch.take(rt, worker_no, loop_no, request),
            Point::Started => self.watch.start(rt, worker_no, loop_no, request, true),
            Point::Finished | Point::Replied => {}
        }
    }

    fn drops(&self, ticket: Ticket) {
        self.watch.start(
            self.rt,
            self.worker_no,
            ticket.loop_no,
            ticket.request,
            false,
        );
    }

    fn replies(&self, reply: &Reply) {
        self.watch.finish(self.rt, self.worker_no, reply);
    }
}

impl Job for JobBox {
    ghost ticket = { λ job. job.ticket };

    fn ticket(&self) -> Ticket {
        self.ticket
    }

    fn work<R: Wait, W: Watch>(
        rt: &R,
        board: &Board<JobBox>,
        pass: &mut Pass<JobBox>,
        claims: &Claims,
        seat: &mut WorkerSeat,
        watch: &W,
    ) {
        let gate = Watched {
            rt,
            watch,
            worker_no: seat.worker_no(),
        };
        work_until_closed(rt, board, pass, claims, seat, &gate);
    }
}
