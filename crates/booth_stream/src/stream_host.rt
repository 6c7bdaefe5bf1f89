//! A host over any host and any links: the frames of links arrive as datagrams, and a datagram to the peer of an open
//! link is written to that link.
ghost use Rattle.std.specs.Prelude.{◌≡◌, ◌≤◌, [], ◌∷◌, List, IfOk, None, Some, replicate};
ghost use Rattle.booth_host.specs.Past.{GrewBy};
ghost use Rattle.booth_host.specs.Causes.{HasCause, HasReadCause};
ghost use Rattle.booth_host.specs.Told.{told_past};
ghost use Rattle.booth_host.specs.declared.entry.Entry.{Entry};
ghost use Rattle.booth_stream.specs.Calls.{CallsGrewBy};
ghost use Rattle.booth_stream.specs.Steps.{BothGrew, EndsWrites, IsNext, IsSend, OpensBoth, RoseAt, StaysOrCounts, Writes, own_after, own_count, summed};
ghost use Rattle.booth_stream.specs.Table.{places_of};
ghost use Rattle.booth_stream.specs.declared.link_call.LinkCall.{LinkCall};
ghost use Rattle.booth_stream.specs.declared.stream_host.Wrote.{Wrote};

use crate::table::Table;
use crate::{Links, Piece};
use booth_base::{ByteText, Name, Peer};
use booth_host::{Arrival, Datagram, Failed, Host, Job, Place, ReadFault, Told};
use booth_rec::Record;
use std::alloc::{AllocError, Global};

/// A host over a host and links. It serves 16 links at a time.
#[derive(Drop)]
pub struct StreamHost<H, L> {
    host: H,
    links: L,
    table: Table,
    piece: Piece,
    told: Told,
    /// How many writes wrote nothing.
    faults: u64,
}

/// How the writes of a frame ended.
pub(crate) enum Wrote {
    All,
    /// A write wrote nothing.
    Nothing,
    /// A write failed.
    Fault,
}

// Writes all bytes to a link, in as many writes as it needs.
fn write_all<L: Links>(number: u32, bytes: &[u8], links: &mut L) -> Wrote
    ensures past { (calls : List LinkCall) × CallsGrewBy (L.past links.old) (L.past links.new) calls
        × Writes number bytes.now calls result }
    ensures cause { RoseAt result (L.faults links.old) (L.faults links.new) }
{
    let mut rest = bytes;
    'writing: while !rest.is_empty() {
        let Ok(taken) = links.write(number, rest) else {
            return Wrote::Fault;
        };
        if taken == 0 {
            return Wrote::Nothing;
        }
        let (_, left) = rest.split_at(taken);
        rest = left;
    }
    Wrote::All
}

impl<H: Host, L: Links> StreamHost<H, L> {
    /// Returns a host over this host and these links, which records at most `room` calls. No link is open.
    pub fn new(alloc: Global, host: H, links: L, room: u32) -> Result<StreamHost<H, L>, AllocError>
    where
        H: Drop,
        L: Drop,
        ensures made { IfOk result (λ made. (made.host ≡ host) × (made.links ≡ links)) }
        ensures places { IfOk result (λ made. places_of made.table ≡ replicate 16 None) }
        ensures past { IfOk result (λ made. (told_past made.told ≡ Some []) × (made.told.room ≡ room)) }
        ensures faults { IfOk result (λ made. made.faults ≡ 0) }
    {
        let table = Table::new(alloc)?;
        let piece = Piece::new(alloc)?;
        Ok(StreamHost {
            host,
            links,
            table,
            piece,
            told: Told::new(alloc, room),
            faults: 0,
        })
    }

    // Returns a frame of a link, before or after one poll; otherwise the answer of the poll or of the host inside.
    fn arrive(&mut self, wait_ms: u64, into: &mut Datagram) -> Result<Arrival, Failed>
        ensures does { BothGrew
            (λ calls entries. IsNext (places_of self.old.table) wait_ms calls entries result into.new
            (places_of self.new.table))
            (L.past self.old.links) (L.past self.new.links) (H.past self.old.host) (H.past self.new.host) }
        ensures cause { HasCause (summed (H.faults self.old.host) (L.faults self.old.links) self.old.faults)
            (summed (H.faults self.new.host) (L.faults self.new.links) self.new.faults) result }
        ensures told { self.new.told ≡ self.old.told }
        ensures own { self.new.faults ≡ self.old.faults }
    {
        if let Some(peer) = self.table.give_or_rest(into, &mut self.links) {
            return Ok(Arrival::Datagram(peer));
        }
        let polled = self.table.poll(&mut self.piece, &mut self.links);
        if let Some(peer) = self.table.give_polled(into, &mut self.links) {
            return Ok(Arrival::Datagram(peer));
        }
        match polled {
            Ok(_) => self.host.next(wait_ms, into),
            Err(Failed) => Err(Failed),
        }
    }

    // Writes to a link, and closes it if not all bytes were written.
    fn write(&mut self, number: u32, bytes: &[u8]) -> Result<(), Failed>
        ensures does { (wrote : Wrote) × (writes : List LinkCall) × (calls : List LinkCall)
            × CallsGrewBy (L.past self.old.links) (L.past self.new.links) calls
            × Writes number bytes.now writes wrote
            × EndsWrites (places_of self.old.table) number wrote writes calls result (places_of self.new.table)
            × (self.new.faults ≡ own_after wrote self.old.faults) }
        ensures cause { HasCause (summed (H.faults self.old.host) (L.faults self.old.links) self.old.faults)
            (summed (H.faults self.new.host) (L.faults self.new.links) self.new.faults) result }
        ensures told { self.new.told ≡ self.old.told }
        ensures host { self.new.host ≡ self.old.host }
    {
        match write_all(number, bytes, &mut self.links) {
            Wrote::All => return Ok(()),
            Wrote::Nothing => self.faults = self.faults.saturating_add(1),
            Wrote::Fault => {}
        }
        self.table.close(number, &mut self.links);
        Err(Failed)
    }
}

impl<H: Host, L: Links> Host for StreamHost<H, L> {
    ghost past = { λ h. told_past h.told };

    ghost faults = { λ h. summed (H.faults h.host) (L.faults h.links) h.faults };

    /// Opens the host inside, and then the links at the same place.
    fn open(&mut self, place: &Place) -> Result<(), Failed>
        ensures past { GrewBy (told_past self.old.told) (told_past self.new.told)
            (Entry.Open place.now.local place.now.port place.now.records place.now.conf_path result ∷ []) }
        ensures cause { HasCause (summed (H.faults self.old.host) (L.faults self.old.links) self.old.faults)
            (summed (H.faults self.new.host) (L.faults self.new.links) self.new.faults) result }
        ensures opens { OpensBoth place.now result (L.past self.old.links) (L.past self.new.links)
            (H.past self.old.host) (H.past self.new.host) }
        ensures table { self.new.table ≡ self.old.table }
        ensures own { self.new.faults ≡ self.old.faults }
    {
        let first = self.host.open(place);
        let second = self.links.open(place);
        let answer = match first {
            Ok(()) => second,
            Err(Failed) => Err(Failed),
        };
        self.told.open(place, answer);
        answer
    }

    /// Returns the next whole frame of a link, before or after one poll of the links. Otherwise returns the answer of
    /// this poll if it failed, or else the answer of the host inside.
    fn next(&mut self, wait_ms: u64, into: &mut Datagram) -> Result<Arrival, Failed>
        ensures past { GrewBy (told_past self.old.told) (told_past self.new.told)
            (Entry.Next wait_ms result into.new ∷ []) }
        ensures cause { HasCause (summed (H.faults self.old.host) (L.faults self.old.links) self.old.faults)
            (summed (H.faults self.new.host) (L.faults self.new.links) self.new.faults) result }
        ensures does { BothGrew
            (λ calls entries. IsNext (places_of self.old.table) wait_ms calls entries result into.new
            (places_of self.new.table))
            (L.past self.old.links) (L.past self.new.links) (H.past self.old.host) (H.past self.new.host) }
        ensures own { self.new.faults ≡ self.old.faults }
    {
        let answer = self.arrive(wait_ms, into);
        self.told.next(wait_ms, answer, into.bytes());
        answer
    }

    /// Writes to a link that is open to this peer; otherwise the host inside sends. A link that does not take all
    /// bytes is closed.
    fn send(&mut self, to: &Peer, bytes: &[u8]) -> Result<(), Failed>
        ensures past { GrewBy (told_past self.old.told) (told_past self.new.told)
            (Entry.Send to.now bytes.now result ∷ []) }
        ensures cause { HasCause (summed (H.faults self.old.host) (L.faults self.old.links) self.old.faults)
            (summed (H.faults self.new.host) (L.faults self.new.links) self.new.faults) result }
        ensures does { BothGrew
            (λ calls entries. IsSend (places_of self.old.table) to.now bytes.now calls entries result
            (places_of self.new.table) × (self.new.faults ≡ own_count self.old.faults calls))
            (L.past self.old.links) (L.past self.new.links) (H.past self.old.host) (H.past self.new.host) }
        ensures own { StaysOrCounts self.old.faults self.new.faults result }
    {
        let answer = match self.table.reach(to) {
            Some(number) => self.write(number, bytes),
            None => self.host.send(to, bytes),
        };
        self.told.send(to, bytes, answer);
        answer
    }

    fn now(&mut self) -> u64
        ensures past { GrewBy (told_past self.old.told) (told_past self.new.told) (Entry.Now result ∷ []) }
        ensures later { summed (H.faults self.old.host) (L.faults self.old.links) self.old.faults
            ≤ summed (H.faults self.new.host) (L.faults self.new.links) self.new.faults }
        ensures inner { GrewBy (H.past self.old.host) (H.past self.new.host) (Entry.Now result ∷ []) }
        ensures links { self.new.links ≡ self.old.links }
        ensures table { self.new.table ≡ self.old.table }
        ensures own { self.new.faults ≡ self.old.faults }
    {
        let answer = self.host.now();
        self.told.now(answer);
        answer
    }

    fn kept(&mut self, ticket: &Name) -> Result<Option<Record>, Failed>
        ensures past { GrewBy (told_past self.old.told) (told_past self.new.told) (Entry.Kept ticket.now result ∷ []) }
        ensures cause { HasCause (summed (H.faults self.old.host) (L.faults self.old.links) self.old.faults)
            (summed (H.faults self.new.host) (L.faults self.new.links) self.new.faults) result }
        ensures inner { GrewBy (H.past self.old.host) (H.past self.new.host) (Entry.Kept ticket.now result ∷ []) }
        ensures links { self.new.links ≡ self.old.links }
        ensures table { self.new.table ≡ self.old.table }
        ensures own { self.new.faults ≡ self.old.faults }
    {
        let answer = self.host.kept(ticket);
        self.told.kept(ticket, answer);
        answer
    }

    fn keep(&mut self, ticket: &Name, rec: &Record) -> Result<(), Failed>
        ensures past { GrewBy (told_past self.old.told) (told_past self.new.told)
            (Entry.Keep ticket.now rec.now result ∷ []) }
        ensures cause { HasCause (summed (H.faults self.old.host) (L.faults self.old.links) self.old.faults)
            (summed (H.faults self.new.host) (L.faults self.new.links) self.new.faults) result }
        ensures inner { GrewBy (H.past self.old.host) (H.past self.new.host)
            (Entry.Keep ticket.now rec.now result ∷ []) }
        ensures links { self.new.links ≡ self.old.links }
        ensures table { self.new.table ≡ self.old.table }
        ensures own { self.new.faults ≡ self.old.faults }
    {
        let answer = self.host.keep(ticket, rec);
        self.told.keep(ticket, rec, answer);
        answer
    }

    fn start(&mut self, job: &Job) -> Result<(), Failed>
        ensures past { GrewBy (told_past self.old.told) (told_past self.new.told)
            (Entry.Start job.now.number job.now.ticket job.now.handler job.now.local job.now.expires result ∷ []) }
        ensures cause { HasCause (summed (H.faults self.old.host) (L.faults self.old.links) self.old.faults)
            (summed (H.faults self.new.host) (L.faults self.new.links) self.new.faults) result }
        ensures inner { GrewBy (H.past self.old.host) (H.past self.new.host)
            (Entry.Start job.now.number job.now.ticket job.now.handler job.now.local job.now.expires result ∷ []) }
        ensures links { self.new.links ≡ self.old.links }
        ensures table { self.new.table ≡ self.old.table }
        ensures own { self.new.faults ≡ self.old.faults }
    {
        let answer = self.host.start(job);
        self.told.start(job, answer);
        answer
    }

    fn read_file(&mut self, alloc: Global, path: &str) -> Result<ByteText, ReadFault>
        ensures past { GrewBy (told_past self.old.told) (told_past self.new.told)
            (Entry.ReadFile path.now result ∷ []) }
        ensures cause { HasReadCause (summed (H.faults self.old.host) (L.faults self.old.links) self.old.faults)
            (summed (H.faults self.new.host) (L.faults self.new.links) self.new.faults) result }
        ensures inner { GrewBy (H.past self.old.host) (H.past self.new.host) (Entry.ReadFile path.now result ∷ []) }
        ensures links { self.new.links ≡ self.old.links }
        ensures table { self.new.table ≡ self.old.table }
        ensures own { self.new.faults ≡ self.old.faults }
    {
        let answer = self.host.read_file(alloc, path);
        self.told.read_file(path, &answer);
        answer
    }

    fn lock(&mut self, path: &str) -> Result<bool, Failed>
        ensures past { GrewBy (told_past self.old.told) (told_past self.new.told) (Entry.Lock path.now result ∷ []) }
        ensures cause { HasCause (summed (H.faults self.old.host) (L.faults self.old.links) self.old.faults)
            (summed (H.faults self.new.host) (L.faults self.new.links) self.new.faults) result }
        ensures inner { GrewBy (H.past self.old.host) (H.past self.new.host) (Entry.Lock path.now result ∷ []) }
        ensures links { self.new.links ≡ self.old.links }
        ensures table { self.new.table ≡ self.old.table }
        ensures own { self.new.faults ≡ self.old.faults }
    {
        let answer = self.host.lock(path);
        self.told.lock(path, answer);
        answer
    }

    fn out(&mut self, bytes: &[u8]) -> Result<(), Failed>
        ensures past { GrewBy (told_past self.old.told) (told_past self.new.told) (Entry.Out bytes.now result ∷ []) }
        ensures cause { HasCause (summed (H.faults self.old.host) (L.faults self.old.links) self.old.faults)
            (summed (H.faults self.new.host) (L.faults self.new.links) self.new.faults) result }
        ensures inner { GrewBy (H.past self.old.host) (H.past self.new.host) (Entry.Out bytes.now result ∷ []) }
        ensures links { self.new.links ≡ self.old.links }
        ensures table { self.new.table ≡ self.old.table }
        ensures own { self.new.faults ≡ self.old.faults }
    {
        let answer = self.host.out(bytes);
        self.told.out(bytes, answer);
        answer
    }

    fn err(&mut self, bytes: &[u8]) -> Result<(), Failed>
        ensures past { GrewBy (told_past self.old.told) (told_past self.new.told) (Entry.Err bytes.now result ∷ []) }
        ensures cause { HasCause (summed (H.faults self.old.host) (L.faults self.old.links) self.old.faults)
            (summed (H.faults self.new.host) (L.faults self.new.links) self.new.faults) result }
        ensures inner { GrewBy (H.past self.old.host) (H.past self.new.host) (Entry.Err bytes.now result ∷ []) }
        ensures links { self.new.links ≡ self.old.links }
        ensures table { self.new.table ≡ self.old.table }
        ensures own { self.new.faults ≡ self.old.faults }
    {
        let answer = self.host.err(bytes);
        self.told.err(bytes, answer);
        answer
    }
}
