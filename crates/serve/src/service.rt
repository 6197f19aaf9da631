// What loops are served with.

ghost use Rattle.std.specs.Prelude.{◌≡◌, ◌<◌, IfOk, IfSome};
ghost use Rattle.limits.specs.declared.TheConstants.{MAX_LOOPS, MAX_REQUESTS};
ghost use Rattle.order.specs.Orders.{order_of};
ghost use Rattle.order.specs.Runnable.{CanRun};
ghost use Rattle.board.specs.Jobs.{ticket_of};

use crate::job::Job;
use crate::meter::Meter;
use crate::rooms::Rooms;
use crate::task::Task;
use crate::watch::Watch;
use order::Order;
use std::alloc::AllocError;
use std::sync::{Arc, Wait};

/// What loops are served with: how they wait, who is told what they do, and what makes the job of an order.
pub trait Serves<J: Job> {
    /// How they wait.
    type Rt: Wait;

    /// Who is told.
    type Watcher: Watch;

    /// When jobs can be made.
    ghost ready: { Self → Type 0 };

    /// How they wait.
    fn rt(&self) -> &Self::Rt;

    /// Who is told.
    fn watch(&self) -> &Self::Watcher;

    /// The job of an order, which has the order's ticket and tells the meter what it uses. None if the job that was made has another
    /// ticket: that one is dropped.
    fn job(&self, order: Order, meter: Meter) -> Result<Option<J>, AllocError>
        requires ready { ready self.now }
        requires runs { CanRun (order_of order) }
        requires there { (order.loop_no < MAX_LOOPS) × (order.slot < MAX_REQUESTS) }
        ensures ticket { IfOk result (λ made. IfSome made (λ job. J.ticket job ≡ ticket_of order)) };
}

/// The same as values, and the rooms that the tasks share.
#[derive(Drop)]
pub struct Service<'a, R, M, W> {
    /// How they wait.
    pub rt: &'a R,
    /// What makes the job of a task.
    pub make: &'a M,
    /// Who is told.
    pub watch: &'a W,
    /// In which the orders run.
    pub rooms: &'a Arc<Rooms>,
}

impl<R: Wait, M: Fn(Task) -> Result<J, AllocError>, J: Job, W: Watch> Serves<J>
    for Service<'_, R, M, W> {
    type Rt = R;

    type Watcher = W;

    ghost ready = { λ s. M.IsAlwaysCallable s.make.now };

    fn rt(&self) -> &R {
        self.rt
    }

    fn watch(&self) -> &W {
        self.watch
    }

    fn job(&self, order: Order, meter: Meter) -> Result<Option<J>, AllocError> {
        let rooms = Arc::try_clone(self.rooms)?;
        let task = Task::new(order, meter, rooms);
        let ticket = task.ticket();
        let job = (self.make)(task)?;
        if job.ticket() == ticket {
            return Ok(Some(job));
        }
        Ok(None)
    }
}
