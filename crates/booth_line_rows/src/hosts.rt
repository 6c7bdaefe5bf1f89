//! The player of one kind of hosts.
use crate::kinds::Kind;
use crate::links::link_step;
use booth_host_rows::{Given, play_call};
use booth_rows::{Answer, Player, Words};
use booth_stream::LinkStep;
use std::alloc::Global;
use std::mem;

/// Plays calls of the host that earlier lines create.
#[derive(Drop)]
pub(crate) struct HostPlayer<H: Kind> {
    given: Given,
    links: Vec<LinkStep>,
    host: Option<H>,
}

impl<H: Kind> HostPlayer<H> {
    /// Returns a player without a host.
    pub(crate) fn new(alloc: Global) -> HostPlayer<H> {
        HostPlayer {
            given: Given::new(alloc),
            links: Vec::new(alloc),
            host: None,
        }
    }

    // Creates the host from the given contents.
    fn make(&mut self, words: &mut Words<'_>) {
        let alloc = words.alloc();
        let given = mem::replace(&mut self.given, Given::new(alloc));
        let links = mem::replace(&mut self.links, Vec::new(alloc));
        match H::make(given, links, words) {
            Ok(host) => self.host = Some(host),
            Err(_) => words.tear(),
        }
    }

    // Adds an event of a link.
    fn link(&mut self, words: &mut Words<'_>) {
        if self.links.push(link_step(words)).is_err() {
            words.tear();
        }
    }

    // Plays a line for the host.
    fn call(&mut self, call: &str, words: &mut Words<'_>, answer: &mut Answer) {
        match &mut self.host {
            Some(host) if call == "told" => host.tell(answer),
            Some(host) if call == "add" || call == "forget" => host.change(call, words),
            Some(host) => play_call(host, call, words, answer),
            None => words.refuse(),
        }
    }
}

impl<H: Kind> Player for HostPlayer<H> {
    fn play(&mut self, words: &mut Words<'_>, answer: &mut Answer) {
        match words.word() {
            "give" => self.given.take(words.word(), words),
            "link" => self.link(words),
            "over" => self.make(words),
            call => self.call(call, words, answer),
        }
    }
}
