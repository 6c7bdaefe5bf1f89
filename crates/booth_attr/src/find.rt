//! The search for a ticket's pair with a name.
ghost use Rattle.std.specs.Prelude.{◌<◌, length};
ghost use Rattle.booth_attr.specs.Places.{IsNodeOf};

use crate::pair::Pair;
use booth_base::Name;
use booth_chain::{Chains, NodeId};

/// Returns the node of the ticket's pair with this name; None exactly if no pair has it.
pub fn node_of(chains: &Chains<Pair>, ticket: u32, name: &Name) -> Option<NodeId>
    requires { ticket < length chains.now.lists }
    ensures { IsNodeOf chains.now ticket name.now result }
{
    let mut next = chains.front(ticket);
    for _place in 0..chains.count(ticket) {
        let node = next?;
        if chains.at(node).name == *name {
            return Some(node);
        }
        next = chains.after(node);
    }
    None
}
