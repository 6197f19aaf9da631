// What a loop is made of.

ghost use Rattle.std.specs.Prelude.{◌≡◌, IfOk};
ghost use Rattle.std.specs.Arc.{arc_value};
ghost use Rattle.order.specs.Orders.{order_of};
ghost use Rattle.phases.specs.Host.{work_of};
ghost use Rattle.phases.specs.Settings.{setting_of};

use events::settings::LoopSettings;
use imports::Linked;
use order::Order;
use std::alloc::{AllocError, Global};
use std::sync::Arc;

/// What a loop is made of: its module, its number, and what its runs may spend.
#[derive(Drop)]
pub struct Setting {
    pub linked: Arc<Linked, Global>,
    pub loop_no: u32,
    pub settings: LoopSettings,
}

impl Setting {
    /// The next request's order, twice: to be kept, and to be handed out.
    pub fn orders(
        &self,
        alloc: Global,
        request: u32,
        slot: u32,
        op: u32,
        bytes: &[u8],
    ) -> Result<(Order, Order), AllocError>
        ensures kept { IfOk result (λ made. order_of made.0 ≡ work_of (setting_of self.now) request slot op bytes.now) }
        ensures same { IfOk result (λ made. order_of made.1 ≡ order_of made.0) }
    {
        let bytes = Arc::new(alloc, Vec::from_slice(alloc, bytes)?)?;
        let order = self.order(request, slot, op, Arc::try_clone(&bytes)?)?;
        let copy = self.order(request, slot, op, bytes)?;
        Ok((order, copy))
    }

    fn order(
        &self,
        request: u32,
        slot: u32,
        op: u32,
        bytes: Arc<Vec<u8>, Global>,
    ) -> Result<Order, AllocError>
        ensures { IfOk result (λ made. order_of made ≡ work_of (setting_of self.now) request slot op (arc_value bytes).items) }
    {
        Ok(Order {
            loop_no: self.loop_no,
            request,
            slot,
            module: Arc::try_clone(&self.linked)?,
            op,
            bytes,
            fuel: self.settings.work_fuel,
            depth: self.settings.depth,
        })
    }
}
