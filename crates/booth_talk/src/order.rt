//! A client's request and its receiver.
ghost use Rattle.std.specs.Prelude.{◌≡◌, ◌≤◌};
ghost use Rattle.booth_talk.specs.Asking.{bit, cmd_of, find_peer, is_list, is_waiting, options_of, order_options};
ghost use Rattle.booth_talk.specs.Report.{is_silent, is_status};

use booth_base::{AttrValue, MemberId, Name, Peer};
use booth_conf::Config;
use booth_keys::Ring;
use booth_wire::{Cmd, options};

/// The options of a grant or a revoke.
#[derive(Clone, Copy)]
pub struct Options {
    /// Whether a manual ticket is granted although another member is known to hold it.
    pub immediate: bool,
    /// Whether the client waits for the outcome.
    pub wait: bool,
    /// Whether a grant counts only after its record is written. The client then waits for the write.
    pub commit: bool,
}

impl Options {
    /// No options.
    pub const NONE: Options = Options {
        immediate: false,
        wait: false,
        commit: false,
    };
}

/// The form of the output for one ticket.
#[derive(Clone, Copy)]
pub enum Style {
    /// One line of text.
    Line,
    /// One JSON object on a line.
    Json,
}

/// The kind of a request.
#[derive(Drop)]
pub enum Order {
    /// The tickets and their owners.
    List,
    /// The holder, the term and the time left of one ticket.
    Show(Name, Style),
    /// The members, and the counters of the messages from and to them.
    Peers,
    /// Any answer, which shows that the daemon runs.
    Status,
    /// A grant of the ticket to the site.
    Grant(Name, Options),
    /// A revocation of the ticket.
    Revoke(Name, Options),
    /// Set an attribute of the ticket to this value.
    SetAttribute {
        ticket: Name,
        name: Name,
        value: AttrValue,
    },
    /// The value of an attribute of the ticket.
    GetAttribute {
        ticket: Name,
        name: Name,
    },
    /// Delete an attribute of the ticket.
    DeleteAttribute {
        ticket: Name,
        name: Name,
    },
    /// The attributes of the ticket, with their values.
    ListAttributes(Name),
}

/// A request, and the cluster that receives it.
#[derive(Drop)]
pub struct Asking {
    pub order: Order,
    pub config: Config,
    pub ring: Option<Ring>,
}

// Returns this value if it is set, and otherwise 0.
fn bit(set: bool, value: u32) -> u32
    ensures bit { result ≡ bit set value }
    ensures most { result ≤ value }
{
    if set { value } else { 0 }
}

impl Options {
    /// Returns whether the client waits for the outcome.
    pub(crate) fn is_waiting(&self) -> bool
        ensures { result ≡ is_waiting self.now }
    {
        self.wait || self.commit
    }

    /// Returns the bits of the request.
    pub(crate) fn bits(&self) -> u32
        ensures { result ≡ options_of self.now }
    {
        bit(self.immediate, options::IMMEDIATE)
            + bit(self.is_waiting(), options::WAIT)
            + bit(self.commit, options::COMMIT)
    }
}

impl Order {
    /// Returns the command of the request.
    pub(crate) fn cmd(&self) -> Cmd
        ensures { result ≡ cmd_of self.now }
    {
        match self {
            Order::List => Cmd::CLst,
            Order::Show(_, _) => Cmd::CTkt,
            Order::Peers | Order::Status => Cmd::Peer,
            Order::Grant(_, _) => Cmd::CGnt,
            Order::Revoke(_, _) => Cmd::CRvk,
            Order::SetAttribute { .. } => Cmd::ASet,
            Order::GetAttribute { .. } => Cmd::AGet,
            Order::DeleteAttribute { .. } => Cmd::ADel,
            Order::ListAttributes(_) => Cmd::ALst,
        }
    }

    /// Returns whether the request is for the list of tickets, which comes in parts.
    pub fn is_list(&self) -> bool
        ensures { result ≡ is_list self.now }
    {
        match self {
            Order::List => true,
            Order::Show(_, _) | Order::Peers | Order::Status => false,
            Order::Grant(_, _) | Order::Revoke(_, _) => false,
            Order::SetAttribute { .. } | Order::GetAttribute { .. } => false,
            Order::DeleteAttribute { .. } | Order::ListAttributes(_) => false,
        }
    }

    /// Returns whether a good reply has no output.
    pub fn is_silent(&self) -> bool
        ensures { result ≡ is_silent self.now }
    {
        match self {
            Order::SetAttribute { .. } | Order::DeleteAttribute { .. } => true,
            Order::List | Order::Show(_, _) | Order::Peers | Order::Status => false,
            Order::Grant(_, _) | Order::Revoke(_, _) => false,
            Order::GetAttribute { .. } | Order::ListAttributes(_) => false,
        }
    }

    /// Returns whether the client asks whether the daemon runs.
    pub fn is_status(&self) -> bool
        ensures { result ≡ is_status self.now }
    {
        match self {
            Order::Status => true,
            Order::List | Order::Show(_, _) | Order::Peers => false,
            Order::Grant(_, _) | Order::Revoke(_, _) => false,
            Order::SetAttribute { .. } | Order::GetAttribute { .. } => false,
            Order::DeleteAttribute { .. } | Order::ListAttributes(_) => false,
        }
    }

    /// Returns the options of the request.
    pub(crate) fn options(&self) -> Options
        ensures { result ≡ order_options self.now }
    {
        match self {
            Order::List | Order::Show(_, _) => Options::NONE,
            Order::Peers | Order::Status => Options::NONE,
            Order::Grant(_, options) | Order::Revoke(_, options) => *options,
            Order::SetAttribute { .. } | Order::GetAttribute { .. } => Options::NONE,
            Order::DeleteAttribute { .. } | Order::ListAttributes(_) => Options::NONE,
        }
    }
}

impl Asking {
    /// Returns the address at which the member with this id listens, if there is one.
    pub(crate) fn peer(&self, id: MemberId) -> Option<Peer>
        ensures { result ≡ find_peer self.now.config id }
    {
        let found = self
            .config
            .members()
            .iter()
            .find(|member| member.id.0 == id.0);
        found.map(|member| Peer {
            address: member.address,
            port: self.config.port(),
        })
    }
}
