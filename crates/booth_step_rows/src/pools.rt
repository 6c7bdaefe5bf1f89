//! A pool of linked lists of numbers.
ghost use Rattle.std.specs.Prelude.{◌≡◌, ◌<◌, ◌≤◌, length};

use booth_chain::{Chains, Full, NodeId};
use booth_rows::{Answer, Player, Words};
use std::alloc::Global;

/// Plays `new NODES LISTS`; `push LIST ITEM`, which prints the item's node by its place among all that were pushed,
/// or the item if there is no room; `pop LIST`, `count LIST` and `spare`; and for the node at a place `holds NODE`,
/// `remove NODE`, `replace NODE ITEM` and `after NODE`.
#[derive(Drop)]
pub(crate) struct Pools {
    pool: Option<Pool>,
}

/// A pool with its lists, and each node that an item was pushed to.
#[derive(Drop)]
struct Pool {
    chains: Chains<u32>,
    lists: u32,
    nodes: Vec<NodeId>,
    ghost sized: { length chains.lists ≡ lists },
}

impl Pool {
    fn new(alloc: Global, nodes: u32, lists: u32) -> Option<Pool> {
        let Ok(chains) = Chains::with_capacity(alloc, nodes, lists) else {
            return None;
        };
        Some(Pool {
            chains,
            lists,
            nodes: Vec::new(alloc),
        })
    }

    fn push(&mut self, list: u32, item: u32, answer: &mut Answer)
        requires { list < self.old.lists }
    {
        match self.chains.push_back(list, item) {
            Ok(node) => {
                answer.word("at");
                answer.number(self.nodes.len() as u64);
                if self.nodes.push(node).is_err() {
                    answer.tear();
                }
            }
            Err(Full(back)) => {
                answer.word("full");
                answer.small(back);
            }
        }
    }

    // Plays a call of a list.
    fn play_list(&mut self, call: &str, words: &mut Words<'_>, answer: &mut Answer) {
        let list = words.number();
        if list >= self.lists {
            return words.refuse();
        }
        match call {
            "push" => self.push(list, words.number(), answer),
            "pop" => answer.number_or_none(self.chains.pop_front(list).map(u64::from)),
            "count" => answer.small(self.chains.count(list)),
            _ => words.refuse(),
        }
    }

    // Returns the place of a node among those that were pushed.
    fn place_of(&self, node: NodeId) -> Option<u64> {
        let place = self.nodes.iter().position(|one| *one == node)?;
        Some(place as u64)
    }

    // Plays a call of a node that holds an item.
    fn play_held(&mut self, call: &str, node: NodeId, words: &mut Words<'_>, answer: &mut Answer) {
        if !self.chains.holds(node) {
            return answer.word("gone");
        }
        match call {
            "remove" => answer.small(self.chains.remove(node)),
            "replace" => answer.small(self.chains.replace(node, words.number())),
            "after" => {
                let after = match self.chains.after(node) {
                    Some(next) => self.place_of(next),
                    None => None,
                };
                answer.number_or_none(after);
            }
            _ => words.refuse(),
        }
    }

    // Plays a call of a node.
    fn play_node(&mut self, call: &str, words: &mut Words<'_>, answer: &mut Answer) {
        let place = words.number() as usize;
        let Some(node) = self.nodes.get(place).copied() else {
            return words.refuse();
        };
        if call == "holds" {
            answer.flag(self.chains.holds(node));
        } else {
            self.play_held(call, node, words, answer);
        }
    }

    fn play(&mut self, call: &str, words: &mut Words<'_>, answer: &mut Answer) {
        match call {
            "spare" => answer.small(self.chains.spare()),
            "push" | "pop" | "count" => self.play_list(call, words, answer),
            _ => self.play_node(call, words, answer),
        }
    }
}

impl Pools {
    /// Returns a player without a pool.
    pub(crate) fn new() -> Pools {
        Pools { pool: None }
    }
}

impl Player for Pools {
    fn play(&mut self, words: &mut Words<'_>, answer: &mut Answer) {
        let call = words.word();
        if call == "new" {
            let (nodes, lists) = (words.number(), words.number());
            self.pool = Pool::new(words.alloc(), nodes, lists);
            return;
        }
        match &mut self.pool {
            Some(pool) => pool.play(call, words, answer),
            None => words.refuse(),
        }
        answer.end();
    }
}
