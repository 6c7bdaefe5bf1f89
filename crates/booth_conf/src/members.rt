//! The members.
ghost use Rattle.std.specs.Prelude.{◌≡◌, ◌++◌, ◌∷◌, [], false, length, OnOk, OnErr};
ghost use Rattle.std.specs.List.{list_any};
ghost use Rattle.booth_conf.specs.Values.{member_at};
ghost use Rattle.booth_conf.specs.Rules.{is_at};

use booth_base::{Address, MemberId};
use indexmap::IndexSet;
use std::alloc::{AllocError, Global};
use std::marker::Model;

/// A member: a site, which may hold tickets, or an arbitrator.
#[derive(Clone, Copy)]
pub struct Member {
    pub site: bool,
    pub address: Address,
    pub id: MemberId,
}

/// Returns the member at this address.
pub fn member_at(site: bool, address: Address) -> Member
    ensures { result ≡ member_at site address }
{
    Member {
        site,
        address,
        id: address.id(),
    }
}

/// Members with different addresses, in the order of the file.
#[derive(Drop)]
pub struct MemberList {
    addresses: IndexSet<Address>,
    members: Vec<Member>,
}

impl Model for MemberList {
    ghost use Rattle.std.specs.Prelude.{◌≡◌, List, map};
    ghost use Rattle.booth_conf.specs.declared.members.Member.{Member};

    ghost Value = { List Member };

    ghost view = { λ l. l.members.items };

    ghost invariant = { λ l. l.addresses.keys ≡ map (λ (m : Member). m.address) l.members.items };
}

impl MemberList {
    pub fn new(alloc: Global) -> MemberList
        ensures { result ≡ [] }
    {
        MemberList {
            addresses: IndexSet::new(alloc),
            members: Vec::new(alloc),
        }
    }

    pub fn len(&self) -> usize
        ensures { result ≡ length self.now }
    {
        self.members.len()
    }

    /// Returns whether a member has this address.
    #[tactic(auto, using(crate::proofs::MemberLemmas::any_address))]
    pub fn has(&self, address: Address) -> bool
        ensures { result ≡ list_any (is_at address) self.now }
    {
        self.addresses.contains(&address)
    }

    /// Adds a member with a new address. If the memory has run out, nothing changes.
    #[tactic(auto, using(crate::proofs::MemberLemmas::any_address))]
    pub fn push(&mut self, member: Member) -> Result<(), AllocError>
        requires { list_any (is_at member.address) self.old ≡ false }
        ensures ok { OnOk result (self.new ≡ self.old ++ member ∷ []) }
        ensures err { OnErr result (self.new ≡ self.old) }
    {
        self.members.reserve(1)?;
        self.addresses.insert(member.address)?;
        self.members.push(member).unwrap();
        Ok(())
    }

    /// Returns the members, without their addresses.
    pub fn into_vec(self) -> Vec<Member>
        ensures { result.items ≡ self }
    {
        let MemberList {
            addresses: _,
            members,
        } = self;
        members
    }
}
