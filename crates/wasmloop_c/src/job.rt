// An order that can be run.

ghost use Rattle.std.specs.Prelude.{◌≡◌, ◌<◌, IfOk, IfErr};
ghost use Rattle.limits.specs.declared.TheConstants.{MAX_REQUESTS};
ghost use Rattle.order.specs.Orders.{order_of, end_of};
ghost use Rattle.order.specs.Work.{NoMemory, Uses};
ghost use Rattle.order.specs.Runnable.{CanRun};
ghost use Rattle.order.specs.Slices.{unbegun};

use order::{Order, Reply, Running, Told};
use std::alloc::Global;
use std::marker::Model;

/// An order that can be run, in any thread. To a contract it is the order.
#[derive(Drop)]
pub struct RunnableOrder {
    order: Order,
}

impl Model for RunnableOrder {
    ghost use Rattle.std.specs.Prelude.{◌<◌};
    ghost use Rattle.std.specs.Coded.{codes};
    ghost use Rattle.limits.specs.declared.TheConstants.{MAX_REQUESTS};
    ghost use Rattle.order.specs.Orders.{order_of};
    ghost use Rattle.order.specs.declared.order.Order.{Order};
    ghost use Rattle.order.specs.contracts.order.Order as request;
    ghost use Rattle.order.specs.Runnable.{CanRun};

    ghost Value = { Order };

    ghost coded = { Prim.hlevel (codes, request.the_row.coded) };

    ghost view = { λ j. j.order };

    ghost invariant = { λ j. CanRun (order_of j.order) × (j.order.slot < MAX_REQUESTS) };
}

impl RunnableOrder {
    /// The order as a job.
    pub fn new(order: Order) -> RunnableOrder
        requires runs { CanRun (order_of order) }
        requires slot { order.slot < MAX_REQUESTS }
        ensures { result ≡ order }
    {
        RunnableOrder { order }
    }

    /// The order.
    pub fn order(&self) -> &Order
        ensures same { result.now ≡ self.now }
        ensures slot { result.now.slot < MAX_REQUESTS }
    {
        &self.order
    }

    /// Runs the order.
    pub fn run(self, alloc: Global) -> Told
        ensures order { result.reply.order ≡ self }
        ensures used { Uses (order_of self) (end_of result.reply.outcome) result.used }
    {
        let RunnableOrder { order } = self;
        order.run_told(alloc)
    }

    /// Begins the order, to be run in slices.
    pub fn begin(self, alloc: Global) -> Result<Running, Reply>
        ensures begun { IfOk result (λ r. r ≡ unbegun (order_of self)) }
        ensures refused { IfErr result (λ reply. (reply.order ≡ self) × (end_of reply.outcome ≡ NoMemory)) }
    {
        let RunnableOrder { order } = self;
        order.begin(alloc)
    }
}
