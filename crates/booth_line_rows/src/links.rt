//! Reads a step of a script for links: how many bytes a write accepts, and what arrives.
use booth_base::ByteText;
use booth_host::Failed;
use booth_host_rows::peer;
use booth_rows::Words;
use booth_stream::{LinkEvent, LinkStep};

// Reads an event.
fn event(words: &mut Words<'_>) -> Result<LinkEvent, Failed> {
    match words.word() {
        "quiet" => Ok(LinkEvent::Quiet),
        "failure" => Err(Failed),
        "end" => Ok(LinkEvent::Ended(words.number())),
        "bytes" => Ok(LinkEvent::Bytes(words.number())),
        "open" => Ok(LinkEvent::Opened {
            link: words.number(),
            peer: peer(words),
        }),
        _ => {
            words.refuse();
            Err(Failed)
        }
    }
}

/// Reads a step.
pub(crate) fn link_step(words: &mut Words<'_>) -> LinkStep {
    let takes = words.number() as usize;
    let event = event(words);
    LinkStep {
        event,
        bytes: ByteText::from_vec(words.bytes_or_none()),
        takes,
    }
}
