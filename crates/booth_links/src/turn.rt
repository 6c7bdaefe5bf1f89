//! Who is asked next for an event: the links, or the host that is asked in turn with them.
ghost use Rattle.std.specs.Prelude.{◌≡◌};
ghost use Rattle.booth_links.specs.Turn.{turn_after};

use booth_host::Failed;
use booth_stream::LinkEvent;

/// Which of the two is asked next for an arrival.
#[derive(Clone, Copy)]
pub(crate) enum Turn {
    Links,
    /// The links return Quiet, so that the host is asked.
    Host,
}

/// Returns whose turn it is after this answer of the links.
pub(crate) fn turn_after(answer: &Result<LinkEvent, Failed>) -> Turn
    ensures { result ≡ turn_after answer.now }
{
    match answer {
        Ok(LinkEvent::Quiet) => Turn::Links,
        Ok(LinkEvent::Opened { .. }) => Turn::Host,
        Ok(LinkEvent::Bytes(_)) => Turn::Host,
        Ok(LinkEvent::Ended(_)) => Turn::Host,
        Err(Failed) => Turn::Host,
    }
}
