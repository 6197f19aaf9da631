// What jobs are made of.

ghost use Rattle.std.specs.Prelude.{◌≡◌, ◌<◌};
ghost use Rattle.limits.specs.declared.TheConstants.{MAX_LOOPS, MAX_REQUESTS};
ghost use Rattle.board.specs.Jobs.{ticket_of};
ghost use Rattle.order.specs.Orders.{order_of};
ghost use Rattle.order.specs.Runnable.{CanRun};

use crate::meter::Meter;
use crate::rooms::Rooms;
use claims::Ticket;
use order::{Order, Reply, Told};
use std::alloc::Global;
use std::marker::Model;
use std::sync::Arc;

/// An order that can be run, of a loop and a slot that can be. To a contract it is the order.
#[derive(Drop)]
pub struct Task {
    order: Order,
    meter: Meter,
    rooms: Arc<Rooms>,
}

impl Model for Task {
    ghost use Rattle.std.specs.Prelude.{◌<◌};
    ghost use Rattle.std.specs.Coded.{codes};
    ghost use Rattle.limits.specs.declared.TheConstants.{MAX_LOOPS, MAX_REQUESTS};
    ghost use Rattle.order.specs.Orders.{order_of};
    ghost use Rattle.order.specs.declared.order.Order.{Order};
    ghost use Rattle.order.specs.contracts.order.Order as request;
    ghost use Rattle.order.specs.Runnable.{CanRun};

    ghost Value = { Order };

    ghost coded = { Prim.hlevel (codes, request.the_row.coded) };

    ghost view = { λ t. t.order };

    ghost invariant = { λ t. CanRun (order_of t.order) × (t.order.loop_no < MAX_LOOPS) × (t.order.slot < MAX_REQUESTS) };
}

impl Task {
    /// The order as a task, which runs in one of the rooms and reports to the meter what it uses.
    pub(crate) fn new(order: Order, meter: Meter, rooms: Arc<Rooms>) -> Task
        requires runs { CanRun (order_of order) }
        requires there { (order.loop_no < MAX_LOOPS) × (order.slot < MAX_REQUESTS) }
        ensures { result ≡ order }
    {
        Task {
            order,
            meter,
            rooms,
        }
    }

    /// The ticket of its request, whose loop is below `MAX_LOOPS` and whose slot is below `MAX_REQUESTS`.
    pub fn ticket(&self) -> Ticket
        ensures ticket { result ≡ ticket_of self.now }
        ensures there { (result.loop_no < MAX_LOOPS) × (result.slot < MAX_REQUESTS) }
    {
        Ticket {
            loop_no: self.order.loop_no,
            slot: self.order.slot,
            request: self.order.request,
        }
    }

    /// Runs the order.
    pub fn run(self, alloc: Global) -> Reply
        ensures { result.order ≡ self }
    {
        let Task {
            order,
            meter,
            rooms,
        } = self;
        let Told { reply, used, .. } = rooms.run(alloc, order);
        meter.saw(used);
        reply
    }
}
