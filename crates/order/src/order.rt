// A work request as it is handed out.

ghost use Rattle.std.specs.Prelude.{◌≡◌, ◌↔◌, IsTrue};
ghost use Rattle.order.specs.Orders.{order_of};

use crate::reserving::RefusedMemory;
use events::trap::TrapCode;
use imports::Linked;
use std::alloc::Global;
use std::sync::Arc;
use syntax::laws::one_module;

/// A work request of a loop: whose it is, the operation and the bytes, the module that computes it, and what it may
/// use.
#[derive(Drop)]
pub struct Order {
    /// The loop that asks.
    pub loop_no: u32,
    /// The number of the request, from 1 on.
    pub request: u32,
    /// The slot that the request was opened in, below `MAX_REQUESTS`.
    pub slot: u32,
    /// The module whose `uv_work` computes it.
    pub module: Arc<Linked, Global>,
    /// What `uv_work` is given.
    pub op: u32,
    /// What the guest may read, at most `MAX_BYTES` bytes.
    pub bytes: Arc<Vec<u8>, Global>,
    /// The units of fuel of the start function and `uv_work` together.
    pub fuel: u64,
    /// How many calls may stand open, 1 to `MAX_DEPTH`.
    pub depth: u32,
}

// By hand, as for each type here that crates above drop: they take its contract, and prove no derived body anew.
/// What becomes of a request.
#[derive(Drop)]
pub enum Outcome {
    /// The result of `uv_work`, and the bytes that it set last.
    Done(u32, Vec<u8>),
    /// A trap.
    Trap(TrapCode),
    /// The limit of calls was met.
    Depth,
    /// The fuel was spent.
    Spent,
    /// There was no memory for the instance or the reply: it was refused.
    NoMemory(RefusedMemory),
}

/// Whether two modules have the same bytes, and so are the same.
fn is_same_module(linked: &Linked, other: &Linked) -> bool
    ensures { IsTrue result ↔ (linked.now ≡ other.now) }
{
    one_module();
    let module = linked.valid().module();
    let other = other.valid().module();
    let (_contents, _others) = (module.contents().start, other.contents().start);
    module.bytes() == other.bytes()
}

impl Order {
    /// Whether two orders are equal in every field, the bytes of their modules included.
    pub fn is_same(&self, other: &Order) -> bool
        ensures { IsTrue result ↔ (order_of self.now ≡ order_of other.now) }
    {
        self.loop_no == other.loop_no
            && self.request == other.request
            && self.slot == other.slot
            && self.op == other.op
            && self.fuel == other.fuel
            && self.depth == other.depth
            && self.bytes.as_slice() == other.bytes.as_slice()
            && is_same_module(&self.module, &other.module)
    }
}
