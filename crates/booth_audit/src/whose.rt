//! The member whose journal is replayed.
ghost use Rattle.std.specs.Prelude.{◌≡◌, IfOk, IfSome, false, length};
ghost use Rattle.std.specs.Option.{option_copied, option_map_or};
ghost use Rattle.booth_node.specs.AttributeRequests.{is_at_site};
ghost use Rattle.booth_node.specs.Jobs.{address_in, own_address};
ghost use Rattle.booth_node.specs.Opening.{opened};
ghost use Rattle.booth_node.specs.View.{node_config, state_of};
ghost use Rattle.booth_audit.specs.Noted.{IsMember};

use booth_base::{Address, MemberId};
use booth_conf::{Config, Member};
use booth_keys::Ring;
use booth_node::Node;
use booth_rec::Record;
use std::alloc::{AllocError, Global};
use std::marker::Model;

/// The member whose journal is replayed: the configuration and the ring that it shares with others, its id, and its
/// place.
#[derive(Drop)]
pub struct Whose<'a> {
    config: &'a Config,
    ring: Option<&'a Ring>,
    me: MemberId,
    place: u32,
}

impl<'a> Model for Whose<'a> {
    ghost use Rattle.std.specs.Prelude.{IsSome, position, true};
    ghost use Rattle.std.specs.Option.{option_copied};
    ghost use Rattle.booth_conf.specs.Config.{has_id};
    ghost use Rattle.booth_audit.specs.Noted.{MemberSays};

    ghost Value = { MemberSays };

    ghost view = { λ w. record {
      node = record { config = w.config.now; ring = option_copied w.ring; me = w.me; second = true };
      place = w.place;
    } };

    ghost invariant = { λ w. IsSome (position (has_id w.me) w.config.now.members) };
}

impl<'a> Whose<'a> {
    /// Returns the member at this place, or `None` if the configuration has no such member.
    pub fn new(config: &'a Config, ring: Option<&'a Ring>, place: u32) -> Option<Whose<'a>>
        ensures { IfSome result (λ whose. IsMember config.now (option_copied ring.entry) place whose) }
    {
        let member = config.members().get(place as usize)?;
        config.member(member.id)?;
        Some(Whose {
            config,
            ring,
            me: member.id,
            place,
        })
    }

    /// Returns its place.
    pub(crate) fn place(&self) -> u32
        ensures { result ≡ self.now.place }
    {
        self.place
    }

    /// Returns its configuration.
    pub(crate) fn config(&self) -> &'a Config
        ensures { result.now ≡ self.now.node.config }
    {
        self.config
    }

    /// Returns its ring of keys, if it has one.
    pub(crate) fn ring(&self) -> Option<&'a Ring>
        ensures { option_copied result ≡ self.now.node.ring }
    {
        self.ring
    }

    /// Returns its id.
    pub(crate) fn me(&self) -> MemberId
        ensures { result ≡ self.now.node.me }
    {
        self.me
    }

    /// Returns the address at which it listens.
    pub(crate) fn address(&self) -> Address
        ensures { result ≡ own_address self.now.node }
    {
        let place = self.config.member(self.me).unwrap_or(0);
        address_in(self.config.members().get(place))
    }

    /// Returns whether it is a site and not an arbitrator.
    pub(crate) fn is_site(&self) -> bool
        ensures { result ≡ is_at_site self.now.node }
    {
        let place = self.config.member(self.me).unwrap_or(0);
        is_site_in(self.config.members().get(place))
    }

    // Returns a copy of its ring, if it has one.
    fn copied_ring(&self) -> Option<Ring>
        ensures { result ≡ self.now.node.ring }
    {
        self.ring.map(Ring::copy)
    }

    /// Returns the member's node after a start at this reading of its clock, with these records.
    pub(crate) fn open(
        &self,
        alloc: Global,
        records: &[Option<Record>],
        reading: u64,
    ) -> Result<Node, AllocError>
        requires { length records.now ≡ length self.now.node.config.tickets }
        ensures node { IfOk result (λ node. node_config node ≡ self.now.node) }
        ensures state { IfOk result (λ node. state_of node ≡ opened self.now.node records.now reading) }
    {
        let config = self.config.copy(alloc)?;
        let ring = self.copied_ring();
        let node = Node::open_ring(alloc, config, ring, self.me, records, reading)?;
        Ok(node)
    }
}

fn is_site_in(member: Option<&Member>) -> bool
    ensures { result ≡ option_map_or (λ member. member.site) (option_copied member.entry) false }
{
    match member {
        Some(member) => member.site,
        None => false,
    }
}

fn address_in(member: Option<&Member>) -> Address
    ensures { result ≡ address_in (option_copied member.entry) }
{
    match member {
        Some(member) => member.address,
        None => Address::V4([0; 4]),
    }
}
