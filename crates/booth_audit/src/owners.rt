//! The owner of a journal.
ghost use Rattle.std.specs.Prelude.{◌≡◌, ◌<◌, ◌^◌, IfSome, List, length, option_map, position};
ghost use Rattle.booth_conf.specs.Rules.{is_at};
ghost use Rattle.booth_journal.specs.declared.said.Call.{Call};
ghost use Rattle.booth_journal.specs.Lines.{call_text};
ghost use Rattle.booth_journal.specs.Reading.{IsCall};
ghost use Rattle.booth_journal.specs.Says.{Said, Says};
ghost use Rattle.booth_audit.specs.Faults.{place_of};
ghost use Rattle.booth_audit.specs.Owners.{HasPlace, IsNextOwner, IsNobodys, IsOneOwner, IsOwner, lines_of};

use crate::lines::is_now;
use booth_base::Address;
use booth_conf::{Config, Member};
use booth_journal::{Call, is_open, look, read_call};
use std::alloc::Global;

/// The reason why a journal has no known owner.
#[derive(Clone, Copy, Drop)]
pub(crate) enum OwnerFault {
    /// Its starts do not belong to one member.
    NotOne,
    /// There was no memory for a call.
    OutOfMemory,
}

fn place_at(members: &[Member], address: Address) -> Option<usize>
    ensures exact { result ≡ position (is_at address) members.now }
    ensures within { IfSome result (λ place. place < length members.now) }
{
    members.iter().position(|member| address == member.address)
}

// Returns the place of the member that listens at this address.
fn place_of(config: &Config, local: Option<Address>) -> Option<u32>
    ensures { result ≡ place_of config.now.members local }
{
    match local {
        None => None,
        Some(address) => match place_at(config.members(), address) {
            Some(place) => Some(place as u32),
            None => None,
        },
    }
}

// If a call opens a socket, returns the place of the member whose start it is.
fn place_in(alloc: Global, config: &Config, call: &[u8]) -> Result<Option<u32>, OwnerFault>
    ensures { (said : Call) → IsCall said → call.now ≡ call_text said → HasPlace config.now.members said result }
{
    if !is_open(call) {
        return Ok(None);
    }
    let Ok(Call::Open(local)) = read_call(alloc, call) else {
        return Err(OwnerFault::OutOfMemory);
    };
    match place_of(config, local) {
        Some(place) => Ok(Some(place)),
        None => Err(OwnerFault::NotOne),
    }
}

// Returns the member, if it also has this place.
fn one_owner(owner: Option<u32>, place: u32) -> Result<Option<u32>, OwnerFault>
    ensures { IsOneOwner owner place result }
{
    match owner {
        None => Ok(Some(place)),
        Some(earlier) => {
            if earlier == place {
                Ok(owner)
            } else {
                Err(OwnerFault::NotOne)
            }
        }
    }
}

// Returns the owner of the starts so far and of this call.
fn next_owner(
    alloc: Global,
    config: &Config,
    owner: Option<u32>,
    call: &[u8],
) -> Result<Option<u32>, OwnerFault>
    ensures { (said : Call) → IsCall said → call.now ≡ call_text said
        → IsNextOwner config.now.members owner said result }
{
    match place_in(alloc, config, call) {
        Ok(None) => Ok(owner),
        Ok(Some(place)) => one_owner(owner, place),
        Err(fault) => Err(fault),
    }
}

/// Returns the place of the member whose starts a journal has, or `None` if no start listened.
pub(crate) fn owner(alloc: Global, config: &Config, text: &[u8]) -> Result<Option<u32>, OwnerFault>
    requires says { (all : List Said) × Says text.now all }
    ensures { (all : List Said) → Says text.now all → IsOwner config.now.members all result }
{
    let mut owner = None;
    let mut rest = text;
    'calls: while let Some(first) = look(rest) {
        owner = match next_owner(alloc, config, owner, first.call) {
            Ok(after) => after,
            Err(fault) => return Err(fault),
        };
        rest = first.behind;
    }
    Ok(owner)
}

// Returns the number of lines of a call with this answer.
fn lines_of(answer: Option<&[u8]>) -> u64
    ensures { result ≡ lines_of (option_map (λ bytes. bytes.now) answer.entry) }
{
    match answer {
        Some(_) => 2,
        None => 1,
    }
}

/// Returns the line of the first call that was not demanded, in a journal that belongs to no one. That is the first
/// call that is not a reading of a clock.
pub(crate) fn nobody_strays(text: &[u8]) -> Option<u64>
    requires short { length text.now < 2 ^ 63 }
    requires says { (all : List Said) × Says text.now all }
    ensures { (all : List Said) → Says text.now all → IsNobodys all result }
{
    let mut line = 1u64;
    let mut rest = text;
    'calls: while let Some(first) = look(rest) {
        if is_now(first.call) {
            line += lines_of(first.answer);
            rest = first.behind;
        } else {
            return Some(line);
        }
    }
    None
}
