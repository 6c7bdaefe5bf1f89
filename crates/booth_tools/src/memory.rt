//! The memory of a client's request, which is allocated before the request.
ghost use Rattle.std.specs.Prelude.{IfOk};
ghost use Rattle.booth_tools.specs.Client.{IsMemoryFor};

use booth_talk::{ListRoom, Order, Room};
use std::alloc::{AllocError, Global};

/// The memory of a request.
#[derive(Drop)]
pub(crate) enum Memory {
    /// The memory for a list, which comes in parts.
    List(ListRoom),
    /// The memory for any other request.
    Talk(Room),
}

impl Memory {
    /// Allocates all memory until this order is answered.
    pub(crate) fn new(alloc: Global, order: &Order) -> Result<Memory, AllocError>
        ensures { IfOk result (λ memory. IsMemoryFor order.now memory) }
    {
        if order.is_list() {
            Ok(Memory::List(ListRoom::new(alloc)?))
        } else {
            Ok(Memory::Talk(Room::new(alloc)?))
        }
    }
}
