//! Ranks: the order in which sites try to acquire a ticket.
ghost use Rattle.booth_base.specs.declared.limits.TheConstants.{MEMBERS};
ghost use Rattle.std.specs.Prelude.{◌≡◌, ◌≤◌, ◌<◌, length, slice_index, count_by};
ghost use Rattle.std.specs.List.{enumerate_from};
ghost use Rattle.booth_conf.specs.Lookups.{comes_before, rank_of};

use crate::members::Member;
use booth_base::MEMBERS;

// Returns the weight of the member at this place. A missing weight is 0.
fn weight(weights: &[u32], member: usize) -> u32
    ensures { result ≡ slice_index weights.now member }
{
    weights.get(member).copied().unwrap_or(0)
}

fn comes_before(weights: &[u32], member: usize, place: usize, other: Member) -> bool
    ensures { result ≡ comes_before weights.now member (place, other) }
{
    let own = weight(weights, member);
    let its = weight(weights, place);
    other.site && (own < its || (its == own && place < member))
}

/// Returns how many sites come before this one.
pub fn rank(members: &[Member], weights: &[u32], member: usize) -> u32
    requires { length members.now ≤ MEMBERS }
    ensures { result ≡ rank_of members.now weights.now member }
{
    let mut rank = 0;
    for (place, other) in members.iter().enumerate() {
        if comes_before(weights, member, place, *other) {
            rank += 1;
        }
    }
    rank
}
