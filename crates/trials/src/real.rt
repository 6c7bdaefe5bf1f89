//! Plays calls of the real host: those of any host, and `await DIRECTORY`, the wait for the clock of its records;
//! `expect ADDRESS`, which gives a member a socket of its own; `beside`, which has programs of the word `renew` run
//! beside others. And those of what tells the service manager: `notify TEXT` and `beat`.
use booth_host_rows::{address, path, play_call};
use booth_real::{Notifier, RealHost};
use booth_rows::{Answer, Player, Words};

/// The real host, and what tells the service manager.
#[derive(Drop)]
pub struct Real {
    host: RealHost,
    notifier: Notifier,
}

impl Real {
    /// Returns a player of a new host, or none if the memory has run out.
    pub fn new(rt: &HostRuntime) -> Option<Real> {
        let host = RealHost::new(rt.clone().ok()?, rt.alloc()).ok()?;
        let notifier = Notifier::new(rt.clone().ok()?, "trials");
        Some(Real { host, notifier })
    }

    fn await_clock(&mut self, words: &mut Words<'_>) {
        if let Some(records) = path(words) {
            self.host.await_clock(&records);
        }
    }

    fn expect(&mut self, words: &mut Words<'_>) {
        if self.host.expect(address(words)).is_err() {
            words.refuse();
        }
    }
}

impl Player for Real {
    fn play(&mut self, words: &mut Words<'_>, answer: &mut Answer) {
        match words.word() {
            "await" => self.await_clock(words),
            "expect" => self.expect(words),
            "beside" => self.host.run_beside("renew"),
            "notify" => self.notifier.send(words.text().as_str()),
            "beat" => self.notifier.beat(),
            call => play_call(&mut self.host, call, words, answer),
        }
    }
}
