//! The draws of an event from the generator.
ghost use Rattle.std.specs.Prelude.{◌≡◌, ◌<◌};
ghost use Rattle.booth_sim.specs.Drawing.{drawn, generator_of, keeps_fail, kind_of, member_of, rise_of, ticket_of};

use rand_core::utils::NextWord;
use rand_pcg::Pcg32;

/// The stream of the generator.
const STREAM: u64 = 54;

/// Three words, in the order in which they are drawn.
#[derive(Clone, Copy)]
pub struct Draw {
    pub first: u32,
    pub second: u32,
    pub third: u32,
}

/// The kind of an event.
#[derive(Clone, Copy)]
pub(crate) enum Kind {
    /// A frame arrives at its receiver.
    Frame,
    /// Nothing arrives.
    Quiet,
    /// A client requests a ticket.
    Grant,
    /// A client requests that a ticket be revoked.
    Revoke,
    /// A member is stopped, and starts again.
    Restart,
}

/// Returns the generator with a seed.
pub fn generator_of(number: u64) -> Pcg32
    ensures { result ≡ generator_of number }
{
    Pcg32::new(number, STREAM)
}

impl Draw {
    /// Draws the next three words.
    pub fn next(generator: &mut Pcg32) -> Draw
        ensures { (result, generator.new) ≡ drawn generator.old }
    {
        let first = generator.next_word();
        let second = generator.next_word();
        let third = generator.next_word();
        Draw {
            first,
            second,
            third,
        }
    }

    /// Returns the number of milliseconds by which true time rises.
    pub(crate) fn rise(&self) -> u64
        ensures exact { result ≡ rise_of self.now }
        ensures few { result < 2000 }
    {
        u64::from(self.first % 2000)
    }

    /// Returns whether each write in this event's turn fails.
    pub(crate) fn keeps_fail(&self) -> bool
        ensures { result ≡ keeps_fail self.now }
    {
        self.third % 64 == 0
    }

    /// Returns the kind of the event.
    pub(crate) fn kind(&self) -> Kind
        ensures { result ≡ kind_of self.now }
    {
        match self.second % 2000 {
            0..=1199 => Kind::Frame,
            1200..=1989 => Kind::Quiet,
            1990..=1997 => Kind::Grant,
            1998 => Kind::Revoke,
            _ => Kind::Restart,
        }
    }

    /// Returns the member at which the event is, among this many.
    pub(crate) fn member(&self, members: usize) -> usize
        requires { 0 < members }
        ensures exact { result ≡ member_of self.now members }
        ensures within { result < members }
    {
        self.third as usize % members
    }

    /// Returns the ticket in a client's request, among this many.
    pub(crate) fn ticket(&self, tickets: usize) -> usize
        requires { 0 < tickets }
        ensures exact { result ≡ ticket_of self.now tickets }
        ensures within { result < tickets }
    {
        self.first as usize % tickets
    }
}
