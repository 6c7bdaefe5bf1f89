//! The setup of a node.
ghost use Rattle.booth_auth.specs.Verdict.{verdict, Passes};

use booth_auth::{DropFault, ring_gate};
use booth_base::MemberId;
use booth_conf::Config;
use booth_keys::Ring;
use booth_wire::Message;

/// A member of a cluster: the configuration that it shares, its ring of keys if there is one, its own id, and the
/// version of its rules.
#[derive(Drop)]
pub struct NodeConfig {
    pub config: Config,
    pub ring: Option<Ring>,
    pub me: MemberId,
    /// Whether the member follows the rules of version 2, which write promises to records.
    pub second: bool,
}

impl NodeConfig {
    /// Returns the message of a datagram that is accepted at this reading in ms, or the fault for which it is
    /// dropped.
    pub(crate) fn admit<'a>(&self, now: u64, bytes: &'a [u8]) -> Result<Message<'a>, DropFault>
        ensures { Passes result (verdict self.now.config self.now.ring self.now.me now bytes.now) }
    {
        ring_gate(&self.config, self.ring.as_ref(), self.me, now, bytes)
    }
}
