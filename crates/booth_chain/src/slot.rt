//! What a timer stores for a slot.

use crate::node_id::NodeId;

/// A slot's node in the pool, and its deadline.
#[derive(Clone, Copy)]
pub(crate) struct Slot {
    pub(crate) node: NodeId,
    pub(crate) deadline: Option<u64>,
}

/// A slot that is due, and its deadline.
#[derive(Clone, Copy)]
pub(crate) struct Found {
    pub(crate) slot: u32,
    pub(crate) deadline: u64,
}
