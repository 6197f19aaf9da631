// A board with one of its passes.

ghost use Rattle.std.specs.Prelude.{◌≡◌, ◌+◌, ◌<◌, ◌≤◌, length, All};
ghost use Rattle.board.specs.Boards.{IsPassOf, IsNewPass};

use board::{Board, JobBox, Pass};
use claims::Ticket;
use order::Reply;
use std::sync::Wait;

#[derive(Drop)]
pub struct BoardHand<'a> {
    pub board: &'a Board,
    pub pass: Pass,
    ghost own: { IsPassOf board.now pass },
    ghost loops: { 0 < length board.now.replies },
}

impl BoardHand<'_> {
    /// Posts a job. The one that comes back.
    pub fn offer<R: Wait>(&mut self, rt: &R, job: JobBox) -> Option<JobBox> {
        self.board.post(rt, &mut self.pass, job).err()
    }

    /// Posts a job. The ticket of one that comes back.
    pub fn post<R: Wait>(&mut self, rt: &R, job: JobBox) -> Option<Ticket> {
        let back = self.offer(rt, job)?;
        Some(back.ticket)
    }

    /// Takes a job. Its ticket.
    pub fn take<R: Wait>(&mut self, rt: &R) -> Option<Ticket> {
        let job = self.board.take(rt, &mut self.pass)?;
        Some(job.ticket)
    }

    /// Puts a reply for the first loop. The request of one that comes back.
    pub fn put<R: Wait>(&mut self, rt: &R, reply: Reply) -> Option<u32>
        requires { reply.order.loop_no ≡ 0 }
    {
        let back = self.board.put_reply(rt, &mut self.pass, reply).err()?;
        Some(request_of(back))
    }

    /// Collects a reply for the first loop. Its request.
    pub fn collect<R: Wait>(&mut self, rt: &R) -> Option<u32> {
        let reply = self.board.collect(rt, &mut self.pass, 0)?;
        Some(request_of(reply))
    }
}

fn request_of(reply: Reply) -> u32 {
    let request = reply.order.request;
    drop(reply);
    request
}

/// With one of the board's passes.
fn one_hand<'a>(board: &'a Board, passes: &mut Vec<Pass>) -> BoardHand<'a>
    requires loops { 0 < length board.now.replies }
    requires count { 1 ≤ length passes.old.items }
    requires passes { All (IsNewPass board.now) passes.old.items }
    ensures count { length passes.old.items ≡ length passes.new.items + 1 }
    ensures passes { All (IsNewPass board.now) passes.new.items }
{
    let Some(pass) = passes.pop() else {
        unreachable!()
    };
    BoardHand { board, pass }
}

/// With two of the board's passes.
pub fn two_hands<'a>(board: &'a Board, passes: &mut Vec<Pass>) -> (BoardHand<'a>, BoardHand<'a>)
    requires loops { 0 < length board.now.replies }
    requires count { 2 ≤ length passes.old.items }
    requires passes { All (IsNewPass board.now) passes.old.items }
    ensures count { length passes.old.items ≡ length passes.new.items + 2 }
    ensures passes { All (IsNewPass board.now) passes.new.items }
{
    (one_hand(board, passes), one_hand(board, passes))
}
