//! The removal of items from the middle of a long list.
ghost use Rattle.std.specs.Prelude.{◌<◌, length};

use booth_chain::{Chains, NodeId};
use std::alloc::Global;

// Pushes this many items to one list, and returns the node of each.
fn push_each(alloc: Global, chains: &mut Chains<u32>, items: u32) -> Option<Vec<NodeId>>
    requires { 0 < length chains.old.lists }
{
    let mut nodes = Vec::with_capacity(alloc, items as usize).ok()?;
    for item in 0..items {
        let Ok(node) = chains.push_back(0, item) else {
            return None;
        };
        nodes.push(node).ok()?;
    }
    Some(nodes)
}

// Removes an item, and returns whether the node `next` then follows the node `before`.
fn leaves(chains: &mut Chains<u32>, before: NodeId, gone: NodeId, next: NodeId) -> bool {
    if !chains.holds(gone) {
        return false;
    }
    chains.remove(gone);
    chains.holds(before) && chains.after(before) == Some(next)
}

// Removes each node but the last, the first first. Returns how many were removed; None if one was not removed like
// this.
fn remove_each(chains: &mut Chains<u32>, before: NodeId, nodes: &[NodeId]) -> Option<u32> {
    let mut removed = 0u32;
    for pair in nodes.windows(2) {
        let [gone, next] = pair else {
            return None;
        };
        if !leaves(chains, before, *gone, *next) {
            return None;
        }
        removed = removed.saturating_add(1);
    }
    Some(removed)
}

// Removes the nodes of the second half but the last.
fn remove_second_half(chains: &mut Chains<u32>, nodes: &[NodeId]) -> Option<u32> {
    let (first, second) = nodes.split_at(nodes.len() / 2);
    let before = *first.last()?;
    remove_each(chains, before, second)
}

/// Pushes this many items to one list. Then removes the items of its second half in order, except the last one. After
/// each removal the last item of the first half is followed by the next one that is left. Returns how many were
/// removed; None if a step went otherwise, or the memory has run out.
pub fn remove_from_the_middle(alloc: Global, items: u32) -> Option<u32> {
    let mut chains = Chains::with_capacity(alloc, items, 1).ok()?;
    let nodes = push_each(alloc, &mut chains, items)?;
    remove_second_half(&mut chains, &nodes)
}
