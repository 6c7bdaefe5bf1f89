//! Plays hosts in memory, and hosts over them that log, that write a journal or that serve links; and the texts of
//! journals and streams.
//!
//! Each of the players `memory`, `quiet`, `logged`, `journaled` and `streamed` creates hosts of its kind. `give WORD
//! ..` sets the contents of a host in memory, and `link TAKES EVENT` adds an event of its links. `over` creates the
//! host: `over LINES` for the player `logged`, and `over BYTES APPENDS` for the player `journaled`. Each other line
//! is a call of the host, or `told` for what it has recorded. The player `memory` also has `add STEP` and `forget`
//! for its script.
//!
//! The player `texts` has `journal BYTES`; `begin BYTES` and `feed BYTES` for the pieces of a stream; and `faults`
//! for the texts of a host's faults.
#![tactic(auto)]

mod hosts;
mod kinds;
mod links;
mod texts;

use crate::hosts::HostPlayer;
use crate::kinds::Kind;
use crate::texts::Texts;
use booth_host::{MemoryHost, QuietHost};
use booth_journal::{JournalHost, MemorySink};
use booth_log::{LogHost, MemoryLines};
use booth_rows::play_lines;
use booth_stream::{MemoryLinks, StreamHost};

type Logged = LogHost<MemoryHost, MemoryLines>;

type Journaled = JournalHost<MemoryHost, MemorySink>;

type Streamed = StreamHost<MemoryHost, MemoryLinks>;

// Plays hosts of a kind.
fn play_hosts<H: Kind>(rt: &(impl Input + Print + AllocGlobal)) -> bool {
    play_lines(rt, &mut HostPlayer::<H>::new(rt.alloc()))
}

// Plays texts.
fn play_texts(rt: &(impl Input + Print + AllocGlobal)) -> bool {
    match Texts::new(rt.alloc()) {
        Ok(mut texts) => play_lines(rt, &mut texts),
        Err(_) => false,
    }
}

/// Plays standard input with the player of this name. Returns whether there is one, and it played all lines.
pub fn play(rt: &(impl Input + Print + AllocGlobal), name: &str) -> bool {
    match name {
        "memory" => play_hosts::<MemoryHost>(rt),
        "quiet" => play_hosts::<QuietHost>(rt),
        "logged" => play_hosts::<Logged>(rt),
        "journaled" => play_hosts::<Journaled>(rt),
        "streamed" => play_hosts::<Streamed>(rt),
        "texts" => play_texts(rt),
        _ => false,
    }
}
