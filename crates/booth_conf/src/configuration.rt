//! The configuration as a value.
ghost use Rattle.booth_base.specs.declared.limits.TheConstants.{MEMBERS};
ghost use Rattle.std.specs.Prelude.{◌≡◌, ◌≤◌, ◌<◌, true, length, position, slice_get, IfOk, IfSome, OnOk, IsTrue, IsSomeAnd, List, ℕ, [], unwrap_or};
ghost use Rattle.std.specs.List.{All};
ghost use Rattle.std.specs.Option.{option_copied};
ghost use Rattle.booth_conf.specs.Config.{Completes, ConfigSays, has_id, hash_at};
ghost use Rattle.booth_conf.specs.Lookups.{is_called, rank_of, weights_at};
ghost use Rattle.booth_conf.specs.Sections.{number_given};
ghost use Rattle.booth_conf.specs.Print.{printed};
ghost use Rattle.booth_conf.specs.Says.{Parses, Says};
ghost use Rattle.booth_conf.specs.Sound.{HasTimes, IsSound};
ghost use Rattle.booth_conf.specs.SoundDraft.{is_section, IsSoundDraft};

use crate::checks::file_fault;
use crate::defaults::{PORT, SKEW, tickets};
use crate::drafts::{Draft, NamesAndSections};
use crate::faults::ConfFault;
use crate::keys::ConfKey;
use crate::limits::{TEXT_BYTES, TICKETS};
use crate::lines::read_lines;
use crate::members::Member;
use crate::print_tickets::{push_members, push_tickets};
use crate::prints::{push_late, push_top};
use crate::ranks::rank;
use crate::sections::{Extra, Section};
use crate::tickets::{TicketConf, copy_path};
use booth_base::{ByteText, MEMBERS, MemberId, Name, PathText};
use booth_keys::Hash;
use indexmap::IndexSet;
use std::alloc::{AllocError, Global};
use std::marker::Model;

/// The configuration of a cluster. Its members and its tickets are in the order of the file.
#[derive(Drop)]
pub struct Config {
    port: u16,
    authfile: Option<PathText>,
    skew: u64,
    authfile_old: Option<PathText>,
    auth_hash: Hash,
    extras: Vec<Extra>,
    members: Vec<Member>,
    names: IndexSet<Name>,
    tickets: Vec<TicketConf>,
}

impl Model for Config {
    ghost use Rattle.std.specs.Prelude.{◌≡◌, map};
    ghost use Rattle.booth_conf.specs.Config.{ConfigSays};
    ghost use Rattle.booth_conf.specs.Lookups.{ticket_name};
    ghost use Rattle.booth_conf.specs.Sound.{IsSound};

    ghost Value = { ConfigSays };

    ghost view = { λ c. record {
      port = c.port;
      authfile = c.authfile;
      skew = c.skew;
      authfile_old = c.authfile_old;
      auth_hash = c.auth_hash;
      extras = c.extras.items;
      members = c.members.items;
      tickets = c.tickets.items;
    } };

    ghost invariant = { λ c. (c.names.keys ≡ map ticket_name c.tickets.items)
        × IsSound (record {
          port = c.port;
          authfile = c.authfile;
          skew = c.skew;
          authfile_old = c.authfile_old;
          auth_hash = c.auth_hash;
          extras = c.extras.items;
          members = c.members.items;
          tickets = c.tickets.items;
        }) };
}

fn defaults(alloc: Global, draft: Option<Section<'_>>) -> Section<'_>
    ensures { result ≡ unwrap_or draft.entry [] }
{
    match draft {
        Some(section) => section,
        None => Section::new(alloc),
    }
}

#[tactic(auto, using(crate::proofs::DefaultLemmas::port_fits))]
fn port(top: &Section<'_>) -> u16
    requires { is_section top.now ≡ true }
    ensures { result ≡ unwrap_or (number_given ConfKey.Port top.now) PORT }
{
    match top.number(ConfKey::Port) {
        Some(port) => port as u16,
        None => PORT,
    }
}

// Returns the hash for the word at this place: place 1 is `sha256`.
fn hash(place: Option<usize>) -> Hash
    ensures { result ≡ hash_at (unwrap_or place 0) }
{
    if place.unwrap_or(0) == 1 {
        Hash::Sha256
    } else {
        Hash::Sha1
    }
}

// Returns the configuration of a draft.
//
// # Errors
//
// The first fault of the whole file.
fn complete(alloc: Global, draft: Draft<'_>) -> Result<Config, ConfFault>
    requires { IsSoundDraft draft }
    ensures { Completes draft.entry result }
{
    let Draft {
        top,
        members,
        defaults: default,
        tickets: sections,
    } = draft;
    let defaults = defaults(alloc, default);
    let NamesAndSections { names, sections } = sections.into_sections();
    let members = members.into_vec();
    let extras = match top.extras(alloc) {
        Ok(extras) => extras,
        Err(_) => return Err(ConfFault::OutOfMemory),
    };
    let tickets = match tickets(alloc, &defaults, &sections) {
        Ok(tickets) => tickets,
        Err(_) => return Err(ConfFault::OutOfMemory),
    };
    match file_fault(&members, &tickets) {
        Some(fault) => Err(fault),
        None => Ok(Config {
            port: port(&top),
            authfile: top.text(ConfKey::Authfile),
            skew: u64::from(top.number(ConfKey::Maxtimeskew).unwrap_or(SKEW)),
            authfile_old: top.text(ConfKey::AuthfileOld),
            auth_hash: hash(top.word(ConfKey::Authhash)),
            extras,
            members,
            names,
            tickets,
        }),
    }
}

fn copy_extras(alloc: Global, extras: &[Extra]) -> Result<Vec<Extra>, AllocError>
    ensures { IfOk result (λ v. v.items ≡ extras.now) }
{
    let mut copied = Vec::with_capacity(alloc, extras.len())?;
    for extra in extras {
        copied.push((extra.0, extra.1.copy()))?;
    }
    Ok(copied)
}

fn copy_tickets(alloc: Global, tickets: &[TicketConf]) -> Result<Vec<TicketConf>, AllocError>
    ensures { IfOk result (λ v. v.items ≡ tickets.now) }
{
    let mut copied = Vec::with_capacity(alloc, tickets.len())?;
    for ticket in tickets {
        copied.push(ticket.copy(alloc)?)?;
    }
    Ok(copied)
}

impl Config {
    /// Parses a text of `booth.conf`. The time is linear in the bytes of the text.
    ///
    /// # Errors
    ///
    /// The first fault of the text.
    #[tactic(auto, using(crate::proofs::ParseLemmas::complete_parses, crate::proofs::ParseLemmas::read_parses))]
    pub fn parse(alloc: Global, text: &[u8]) -> Result<Config, ConfFault>
        ensures { Parses text.now result }
    {
        if text.len() > TEXT_BYTES {
            return Err(ConfFault::TooLarge);
        }
        match read_lines(alloc, text) {
            Ok(draft) => complete(alloc, draft),
            Err(fault) => Err(fault),
        }
    }

    /// Returns the UDP port of the daemons.
    pub fn port(&self) -> u16
        ensures { result ≡ self.now.port }
    {
        self.port
    }

    /// Returns the path of the key file, if one is set.
    pub fn authfile(&self) -> Option<&PathText>
        ensures { option_copied result ≡ self.now.authfile }
    {
        self.authfile.as_ref()
    }

    /// Returns how far the time in a signed frame may be behind this member's clock, in seconds.
    pub fn skew(&self) -> u64
        ensures { result ≡ self.now.skew }
    {
        self.skew
    }

    /// Returns the path of the other key file, if one is set: the file of the old key, while the key is changed. It has
    /// no effect if no key file is set.
    pub fn authfile_old(&self) -> Option<&PathText>
        ensures { option_copied result ≡ self.now.authfile_old }
    {
        self.authfile_old.as_ref()
    }

    /// Returns the hash by which a member seals its messages. It has no effect if no key file is set.
    pub fn auth_hash(&self) -> Hash
        ensures { result ≡ self.now.auth_hash }
    {
        self.auth_hash
    }

    /// Returns the keys without effect, in the order of the file.
    pub fn extras(&self) -> &[Extra]
        ensures { result.now ≡ self.now.extras }
    {
        &self.extras
    }

    /// Returns the members, in the order of the file.
    pub fn members(&self) -> &[Member]
        ensures value { result.now ≡ self.now.members }
        ensures few { length result.now ≤ MEMBERS }
    {
        &self.members
    }

    /// Returns the tickets, in the order of the file.
    pub fn tickets(&self) -> &[TicketConf]
        ensures value { result.now ≡ self.now.tickets }
        ensures few { length result.now ≤ TICKETS }
        ensures times { All HasTimes result.now }
    {
        &self.tickets
    }

    /// Returns the place of the member with this id.
    pub fn member(&self, id: MemberId) -> Option<usize>
        ensures place { result ≡ position (has_id id) self.now.members }
        ensures few { IfSome result (λ place. place < MEMBERS) }
    {
        let members = self.members();
        members.iter().position(|member| member.id.0 == id.0)
    }

    /// Returns the place of the ticket with this name.
    pub fn ticket(&self, name: &Name) -> Option<usize>
        ensures { result ≡ position (is_called name.now) self.now.tickets }
    {
        self.names.get_index_of(name)
    }

    /// Returns how many sites come before this one for this ticket: the sites with a greater weight, and the sites with
    /// an equal weight that are earlier in the file. The ticket and the member are given by their places.
    pub fn rank(&self, ticket: usize, member: usize) -> u32
        requires ticket { ticket < length self.now.tickets }
        requires site { IsSomeAnd (slice_get self.now.members member) (λ m. IsTrue m.site) }
        ensures exact { result ≡ rank_of self.now.members (weights_at self.now.tickets ticket) member }
        ensures few { result < MEMBERS }
    {
        rank(&self.members, &self.tickets[ticket].weights, member)
    }

    /// States what holds for each configuration that a text spells.
    pub fn sound(&self)
        ensures { IsSound self.now }
    {
        // The read gives the proof the invariant.
        let _port = self.port;
    }

    /// Returns an equal configuration.
    pub fn copy(&self, alloc: Global) -> Result<Config, AllocError>
        ensures { IfOk result (λ config. config ≡ self.now) }
    {
        Ok(Config {
            port: self.port,
            authfile: copy_path(&self.authfile),
            skew: self.skew,
            authfile_old: copy_path(&self.authfile_old),
            auth_hash: self.auth_hash,
            extras: copy_extras(alloc, &self.extras)?,
            members: Vec::from_slice(alloc, &self.members)?,
            names: self.names.clone()?,
            tickets: copy_tickets(alloc, &self.tickets)?,
        })
    }

    #[tactic(auto, using(crate::proofs::LineLemmas::config_pushed))]
    fn push_to(&self, alloc: Global, text: &mut Vec<u8>) -> Result<(), AllocError>
        requires { text.old.items ≡ [] }
        ensures exact { OnOk result (text.new.items ≡ printed self.now) }
        ensures sound { IsSound self.now }
    {
        push_top(text, self.port, &self.authfile, self.skew)?;
        push_late(text, &self.authfile_old, self.auth_hash, &self.extras)?;
        push_members(text, &self.members)?;
        push_tickets(alloc, text, &self.tickets)
    }

    /// Returns a text that spells this configuration: a line for each key, with the defaults written out.
    pub fn print(&self, alloc: Global) -> Result<ByteText, AllocError>
        ensures exact { IfOk result (λ text. text ≡ printed self.now) }
        ensures again { IfOk result (λ text. Says text self.now) }
    {
        let mut text = Vec::new(alloc);
        self.push_to(alloc, &mut text)?;
        Ok(ByteText::from_vec(text))
    }
}
