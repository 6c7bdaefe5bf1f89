//! The ring, with the keys from their files.
ghost use Rattle.std.specs.Prelude.{◌≤◌, ℕ, IfErr, option_copied};
ghost use Rattle.booth_host.specs.Past.{GrewSome};
ghost use Rattle.booth_outcomes.specs.Outcomes.{HasBlame, IsServed};
ghost use Rattle.booth_outcomes.specs.Keys.{IsFileKey, IsFromFile, IsKeylessOutcome, IsKeyRead, IsRingRead};

use crate::outcome::Ended;
use crate::{Outcome, texts};
use booth_base::PathText;
use booth_conf::Config;
use booth_host::{Host, ReadFault};
use booth_keys::{Key, Ring};
use std::alloc::Global;

// Returns the key in a key file's bytes.
fn file_key(bytes: &[u8]) -> Result<Key, Ended>
    ensures key { IsFileKey bytes.now result }
    ensures keyless { IfErr result (λ ended. IsKeylessOutcome ended.outcome) }
    ensures served { IfErr result (λ ended. IsServed ended.outcome) }
    ensures blame { IfErr result (λ ended. (before after : ℕ) → HasBlame ended.outcome before after) }
{
    match Key::read(bytes) {
        Ok(key) => Ok(key),
        Err(fault) => Err(Ended {
            outcome: Outcome::KeyBad(fault),
            said: texts::key_fault_text(fault),
        }),
    }
}

// Reads the key in the file at this path.
fn from_file<H: Host>(alloc: Global, path: &PathText, host: &mut H) -> Result<Key, Ended>
    ensures past { GrewSome (IsFromFile path.now result) (H.past host.old) (H.past host.new) }
    ensures keyless { IfErr result (λ ended. IsKeylessOutcome ended.outcome) }
    ensures served { IfErr result (λ ended. IsServed ended.outcome) }
    ensures blame { IfErr result (λ ended. HasBlame ended.outcome (H.faults host.old) (H.faults host.new)) }
    ensures later { H.faults host.old ≤ H.faults host.new }
{
    match host.read_file(alloc, path.as_str()) {
        Ok(text) => file_key(text.bytes()),
        Err(ReadFault::Failed) => Err(Ended {
            outcome: Outcome::KeyUnread,
            said: texts::unread_text(path),
        }),
        Err(ReadFault::NoMemory) => Err(Ended::out_of_memory()),
    }
}

// Reads the key in the file at this path, if one is set.
fn key_at<H: Host>(
    alloc: Global,
    path: Option<&PathText>,
    host: &mut H,
) -> Result<Option<Key>, Ended>
    ensures past { GrewSome (IsKeyRead (option_copied path.entry) result) (H.past host.old) (H.past host.new) }
    ensures keyless { IfErr result (λ ended. IsKeylessOutcome ended.outcome) }
    ensures served { IfErr result (λ ended. IsServed ended.outcome) }
    ensures blame { IfErr result (λ ended. HasBlame ended.outcome (H.faults host.old) (H.faults host.new)) }
    ensures later { H.faults host.old ≤ H.faults host.new }
{
    match path {
        Some(path) => match from_file(alloc, path, host) {
            Ok(key) => Ok(Some(key)),
            Err(ended) => Err(ended),
        },
        None => Ok(None),
    }
}

/// Returns the ring of the keys, if the configuration names the file of the first one. This file is read and checked
/// before the old key's file.
pub fn read_ring<H: Host>(
    alloc: Global,
    config: &Config,
    host: &mut H,
) -> Result<Option<Ring>, Ended>
    ensures past { GrewSome (IsRingRead config.now result) (H.past host.old) (H.past host.new) }
    ensures keyless { IfErr result (λ ended. IsKeylessOutcome ended.outcome) }
    ensures served { IfErr result (λ ended. IsServed ended.outcome) }
    ensures blame { IfErr result (λ ended. HasBlame ended.outcome (H.faults host.old) (H.faults host.new)) }
    ensures later { H.faults host.old ≤ H.faults host.new }
{
    let Some(path) = config.authfile() else {
        return Ok(None);
    };
    let first = from_file(alloc, path, host)?;
    let old = key_at(alloc, config.authfile_old(), host)?;
    Ok(Some(Ring {
        first,
        old,
        hash: config.auth_hash(),
    }))
}
