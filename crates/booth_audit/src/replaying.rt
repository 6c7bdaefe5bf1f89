//! The replay of a turn.
ghost use Rattle.std.specs.Prelude.{◌≡◌, ◌≤◌, ◌+◌, ◌^◌, List, IfOk, length};
ghost use Rattle.booth_host.specs.Told.{told_past};
ghost use Rattle.booth_journal.specs.Says.{Said, Says};
ghost use Rattle.booth_node.specs.View.{node_config, state_of};
ghost use Rattle.booth_audit.specs.Hosts.{IsTurned};

use crate::end::End;
use crate::replay_host::{ReplayHost, ReplayedText};
use booth_host::Told;
use booth_journal::Draft;
use booth_node::Node;
use std::alloc::{AllocError, Global};
use std::marker::Brand;

/// The rest of a journal after a turn, the way in which its lines ended if they did, and all calls that the turn
/// requested.
#[derive(Drop)]
pub(crate) struct Turned<'a> {
    pub rest: &'a [u8],
    /// The number of the first line that is left.
    pub line: u64,
    pub end: Option<End>,
    pub told: Told,
    pub draft: Draft,
}

// Runs the turn with a host of this text.
fn turn_over<'a, J: ReplayedText>(
    alloc: Global,
    node: &mut Node,
    text: &'a [u8],
    line: u64,
    draft: Draft,
) -> Result<Turned<'a>, AllocError>
    requires text { text.now ≡ J.text }
    requires line { line ≡ J.line }
    requires short { line + length text.now ≤ 2 ^ 63 }
    ensures turned { IfOk result (λ turned. (left : List Said) → Says text.now left
        → IsTurned (node_config node.old) (state_of node.old) (state_of node.new) text.now line left turned.rest.now
        turned.line turned.end (told_past turned.told)) }
    ensures node { node_config node.new ≡ node_config node.old }
{
    let mut host: ReplayHost<'_, J> = ReplayHost::new(alloc, text, line, draft);
    let _turn = node.turn(&mut host);
    if !host.tells() {
        return Err(AllocError);
    }
    let rest = host.rest();
    let line = host.line();
    let end = host.end();
    let (told, draft) = host.into_parts();
    Ok(Turned {
        rest,
        line,
        end,
        told,
        draft,
    })
}

/// Replays one turn of a node over the text, whose first line has this number. The draft may hold anything.
pub(crate) fn replay_turn<'a>(
    alloc: Global,
    node: &mut Node,
    text: &'a [u8],
    line: u64,
    draft: Draft,
) -> Result<Turned<'a>, AllocError>
    requires { line + length text.now ≤ 2 ^ 63 }
    ensures turned { IfOk result (λ turned. (left : List Said) → Says text.now left
        → IsTurned (node_config node.old) (state_of node.old) (state_of node.new) text.now line left turned.rest.now
        turned.line turned.end (told_past turned.told)) }
    ensures node { node_config node.new ≡ node_config node.old }
{
    turn_over::<Brand>(alloc, node, text, line, draft)
}
