// Rooms for the instances of orders, which the tasks of a service share.

ghost use Rattle.std.specs.Prelude.{◌≡◌};
ghost use Rattle.order.specs.Orders.{order_of};
ghost use Rattle.order.specs.Runnable.{CanRun};

use instance::room::Room;
use order::{Order, Told};
use std::alloc::{AllocError, Global};
use std::sync::Mutex;

/// What instances had of memory that are over, a room for each worker. An order runs in one that no other runs in.
#[derive(Drop)]
pub struct Rooms {
    rooms: Vec<Mutex<Room>>,
}

impl Rooms {
    /// So many, each empty.
    pub fn new(alloc: Global, count: u32) -> Result<Rooms, AllocError> {
        let mut rooms = Vec::with_capacity(alloc, count as usize)?;
        for _ in 0..count {
            rooms.push(Mutex::new(Room::empty()))?;
        }
        Ok(Rooms { rooms })
    }

    /// Runs the order in a room that is free, or in a new one where none is.
    pub fn run(&self, alloc: Global, order: Order) -> Told
        requires { CanRun (order_of order) }
        ensures { result.reply.order ≡ order }
    {
        for room in &self.rooms {
            if let Some(mut room) = room.try_lock() {
                return order.run_in(alloc, &mut room);
            }
        }
        order.run_told(alloc)
    }
}
