// The reply to a work request.

ghost use Rattle.std.specs.Prelude.{◌≡◌};
ghost use Rattle.order.specs.Work.{IsEndOf};
ghost use Rattle.order.specs.Orders.{order_of, end_of};

use crate::order::{Order, Outcome};

/// An order with what became of it: its end, which is all that one thread computes from the order alone, or that there
/// was no memory. `Order::run` alone makes one.
#[non_exhaustive]
#[derive(Drop)]
pub struct Reply {
    pub order: Order,
    pub outcome: Outcome,
    pub ghost computed: { ∥ IsEndOf (order_of order) (end_of outcome) ∥₁ },
}

impl Reply {
    /// What became of the order.
    pub fn into_outcome(self) -> Outcome
        ensures { result ≡ self.outcome }
    {
        let Reply { order: _, outcome } = self;
        outcome
    }
}
