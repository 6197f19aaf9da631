// Gates at which workers may be held.

use board::Board;
use claims::Ticket;
use pool::{Gate, Point};
use std::thread;

/// A gate that holds nobody.
pub struct OpenGate;

impl Gate for OpenGate {
    fn at(&self, _point: Point, _ticket: Ticket) {}
}

/// A gate that holds one request once it is started, until the board is closed, for at most 1,000,000 turns.
#[derive(Clone, Copy)]
pub struct UntilClosed<'a> {
    pub board: &'a Board,
    pub request: u32,
}

impl Gate for UntilClosed<'_> {
    fn at(&self, point: Point, ticket: Ticket) {
        if point != Point::Started || ticket.request != self.request {
            return;
        }
        for _ in 0..1_000_000 {
            if self.board.is_closed() {
                break;
            }
            thread::yield_now();
        }
    }
}
