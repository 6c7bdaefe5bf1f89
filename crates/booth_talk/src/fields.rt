//! The fields of a line, with one blank between them.
ghost use Rattle.std.specs.Prelude.{◌≡◌, ◌≤◌, length, MatchBool};
ghost use Rattle.std.specs.List.{prefix_len};
ghost use Rattle.booth_base.specs.Address.{IsAddress};
ghost use Rattle.booth_talk.specs.Fields.{IsOwner, IsPrinted, IsRole, first, is_field_byte, rest};

use booth_base::Address;

fn first_len(line: &[u8]) -> usize
    ensures len { result ≡ prefix_len is_field_byte line.now }
{
    line.iter().take_while(|b| **b != b' ').count()
}

/// Returns the bytes before the first blank.
#[tactic(auto, using(booth_keys::proofs::KeyLemmas::cuts))]
pub(crate) fn first(line: &[u8]) -> &[u8]
    ensures { result.now ≡ first line.now }
{
    &line[..first_len(line)]
}

/// Returns the bytes after the first blank, or no bytes if there is no blank.
pub(crate) fn rest(line: &[u8]) -> &[u8]
    ensures { result.now ≡ rest line.now }
{
    let end = first_len(line);
    if end < line.len() {
        &line[end + 1..]
    } else {
        &[]
    }
}

// Returns whether an address has 4 or 16 bytes.
fn is_whole(address: Address)
    ensures { IsAddress address }
{
    match address {
        Address::V4(_) | Address::V6(_) => {}
    }
}

/// Returns whether this is an address in the form that Booth prints.
pub(crate) fn is_printed(text: &[u8]) -> bool
    ensures { MatchBool result (IsPrinted text.now) (IsPrinted text.now → ⊥) }
{
    match Address::read(text) {
        Ok(address) => {
            is_whole(address);
            address.print().as_bytes() == text
        }
        Err(_) => false,
    }
}

/// Returns whether this names an owner, or is `none`.
pub(crate) fn is_owner(text: &[u8]) -> bool
    ensures { MatchBool result (IsOwner text.now) (IsOwner text.now → ⊥) }
{
    if text == "none".as_bytes() {
        return true;
    }
    is_printed(text)
}

/// Returns whether this is the role of a member.
pub(crate) fn is_role(text: &[u8]) -> bool
    ensures { MatchBool result (IsRole text.now) (IsRole text.now → ⊥) }
{
    text == "site".as_bytes() || text == "arbitrator".as_bytes()
}
