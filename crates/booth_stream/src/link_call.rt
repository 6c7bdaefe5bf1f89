//! One call of links, with its arguments and its answer.
ghost use Rattle.std.specs.Prelude.{◌≡◌, IfOk};
ghost use Rattle.booth_stream.specs.declared.link_call.LinkCall.{LinkCall};

use crate::LinkEvent;
use booth_base::{Address, ByteText};
use booth_host::Failed;
use std::alloc::{AllocError, Global};

/// One call of links: its arguments and its answer. Bytes are copies.
#[derive(Drop)]
pub enum LinkCall {
    Open {
        local: Option<Address>,
        port: u16,
        answer: Result<(), Failed>,
    },
    /// `bytes` are the bytes of the piece after the call.
    Poll {
        answer: Result<LinkEvent, Failed>,
        bytes: ByteText,
    },
    /// The answer is the number of written bytes, counted from the first one.
    Write {
        link: u32,
        bytes: ByteText,
        answer: Result<usize, Failed>,
    },
    Close {
        link: u32,
    },
}

pub(crate) fn poll_call(
    alloc: Global,
    answer: Result<LinkEvent, Failed>,
    bytes: &[u8],
) -> Result<LinkCall, AllocError>
    ensures { IfOk result (λ call. call ≡ LinkCall.Poll answer bytes.now) }
{
    let bytes = ByteText::new(alloc, bytes)?;
    Ok(LinkCall::Poll { answer, bytes })
}

pub(crate) fn write_call(
    alloc: Global,
    link: u32,
    bytes: &[u8],
    answer: Result<usize, Failed>,
) -> Result<LinkCall, AllocError>
    ensures { IfOk result (λ call. call ≡ LinkCall.Write link bytes.now answer) }
{
    let bytes = ByteText::new(alloc, bytes)?;
    Ok(LinkCall::Write {
        link,
        bytes,
        answer,
    })
}
