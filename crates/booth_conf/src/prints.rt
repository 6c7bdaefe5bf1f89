//! The text of a configuration.
ghost use Rattle.std.specs.Prelude.{◌≡◌, ◌++◌, ◌∷◌, [], flat_map, map, IfOk, decimal};
ghost use Rattle.std.specs.List.{list_all};
ghost use Rattle.booth_conf.specs.Grammar.{is_other};
ghost use Rattle.booth_conf.specs.Grows.{Grows, quote_of};
ghost use Rattle.booth_conf.specs.Keys.{row_of};
ghost use Rattle.booth_conf.specs.Print.{authfile_entries, authfile_old_entries, early_entries, entries_text, extra_entry, extra_key, hash_place, kind_word, late_entries, line_text, prereq_text, test_word, weights_text, word_at, written};
ghost use Rattle.booth_conf.specs.declared.keys.Choice.TheVariants.{Hash as HashChoice};

use crate::keys::{ConfKey, KeyNo};
use crate::sections::Extra;
use crate::tickets::{GrantKind, Prereq};
use booth_base::PathText;
use booth_keys::Hash;
use itoa::Buffer;
use std::alloc::{AllocError, Global};

/// The quotes around a value.
#[derive(Clone, Copy)]
pub enum Quote {
    Double,
    Single,
    Bare,
}

fn holds_no(quote: u8, value: &[u8]) -> bool
    ensures { result ≡ list_all (is_other quote) value.now }
{
    value.iter().all(|b| *b != quote)
}

fn quote_of(value: &[u8]) -> Quote
    ensures { result ≡ quote_of value.now }
{
    if holds_no(b'"', value) {
        return Quote::Double;
    }
    if holds_no(b'\'', value) {
        return Quote::Single;
    }
    Quote::Bare
}

fn push(out: &mut Vec<u8>, bytes: &[u8]) -> Result<(), AllocError>
    ensures { Grows result out.old.items out.new.items bytes.now }
{
    out.extend_from_slice(bytes)
}

#[tactic(auto, using(crate::proofs::PushLemmas::three_pushed))]
fn push_within(out: &mut Vec<u8>, quote: &[u8], value: &[u8]) -> Result<(), AllocError>
    ensures { Grows result out.old.items out.new.items (quote.now ++ (value.now ++ quote.now)) }
{
    push(out, quote)?;
    push(out, value)?;
    push(out, quote)
}

fn push_value(out: &mut Vec<u8>, value: &[u8]) -> Result<(), AllocError>
    ensures { Grows result out.old.items out.new.items (written value.now) }
{
    match quote_of(value) {
        Quote::Double => push_within(out, b"\"", value),
        Quote::Single => push_within(out, b"'", value),
        Quote::Bare => push(out, value),
    }
}

// Appends one line: a key and its value.
#[tactic(auto, using(crate::proofs::PushLemmas::line_pushed), unfolding(crate::specs::Print::line_text))]
pub fn push_line(out: &mut Vec<u8>, name: &str, value: &[u8]) -> Result<(), AllocError>
    ensures { Grows result out.old.items out.new.items (line_text name.now value.now) }
{
    push(out, name.as_bytes())?;
    push(out, b" = ")?;
    push_value(out, value)?;
    push(out, b"\n")
}

fn push_decimal(out: &mut Vec<u8>, n: u64) -> Result<(), AllocError>
    ensures { Grows result out.old.items out.new.items (decimal n) }
{
    let mut digits = Buffer::new();
    push(out, digits.format(n).as_bytes())
}

pub fn push_number(out: &mut Vec<u8>, key: ConfKey, n: u64) -> Result<(), AllocError>
    ensures { Grows result out.old.items out.new.items (line_text (row_of key).name (decimal n)) }
{
    let mut digits = Buffer::new();
    push_line(out, key.row().name, digits.format(n).as_bytes())
}

// Appends a space and a word.
#[tactic(auto, using(crate::proofs::PushLemmas::two_pushed))]
fn push_word(out: &mut Vec<u8>, word: &[u8]) -> Result<(), AllocError>
    ensures { Grows result out.old.items out.new.items (0x20 ∷ word.now) }
{
    push(out, b" ")?;
    push(out, word)
}

fn kind_word(kind: GrantKind) -> &'static [u8]
    ensures { result.now ≡ kind_word kind }
{
    match kind {
        GrantKind::Auto => b"auto",
        GrantKind::Manual => b"manual",
    }
}

fn test_word(equal: bool) -> &'static [u8]
    ensures { result.now ≡ test_word equal }
{
    if equal { b"eq" } else { b"ne" }
}

#[tactic(auto, using(crate::proofs::PushLemmas::four_pushed))]
fn push_prereq(out: &mut Vec<u8>, prereq: &Prereq) -> Result<(), AllocError>
    ensures { Grows result out.old.items out.new.items (prereq_text prereq.now) }
{
    push(out, kind_word(prereq.kind))?;
    push_word(out, prereq.name.bytes())?;
    push_word(out, test_word(prereq.equal))?;
    push_word(out, prereq.value.bytes())
}

pub fn prereq_text(alloc: Global, prereq: &Prereq) -> Result<Vec<u8>, AllocError>
    ensures { IfOk result (λ text. text.items ≡ prereq_text prereq.now) }
{
    let mut text = Vec::new(alloc);
    push_prereq(&mut text, prereq)?;
    Ok(text)
}

// Appends a comma and a number.
#[tactic(auto, using(crate::proofs::PushLemmas::two_pushed))]
fn push_next_weight(out: &mut Vec<u8>, weight: u32) -> Result<(), AllocError>
    ensures { Grows result out.old.items out.new.items (0x2C ∷ decimal weight) }
{
    push(out, b",")?;
    push_decimal(out, u64::from(weight))
}

#[tactic(auto, using(std::proofs::lemmas::List::flat_map_more))]
fn push_more_weights(out: &mut Vec<u8>, weights: &[u32]) -> Result<(), AllocError>
    ensures { Grows result out.old.items out.new.items (flat_map (λ m. 0x2C ∷ decimal m) weights.now) }
{
    for weight in weights {
        push_next_weight(out, *weight)?;
    }
    Ok(())
}

pub fn weights_text(alloc: Global, first: u32, rest: &[u32]) -> Result<Vec<u8>, AllocError>
    ensures { IfOk result (λ text. text.items ≡ weights_text (first ∷ rest.now)) }
{
    let mut text = Vec::new(alloc);
    push_decimal(&mut text, u64::from(first))?;
    push_more_weights(&mut text, rest)?;
    Ok(text)
}

fn push_authfile(out: &mut Vec<u8>, path: &Option<PathText>) -> Result<(), AllocError>
    ensures { Grows result out.old.items out.new.items (entries_text (authfile_entries path.now)) }
{
    match path {
        Some(path) => push_line(out, ConfKey::Authfile.row().name, path.as_str().as_bytes()),
        None => Ok(()),
    }
}

fn push_authfile_old(out: &mut Vec<u8>, path: &Option<PathText>) -> Result<(), AllocError>
    ensures { Grows result out.old.items out.new.items (entries_text (authfile_old_entries path.now)) }
{
    match path {
        Some(path) => push_line(
            out,
            ConfKey::AuthfileOld.row().name,
            path.as_str().as_bytes(),
        ),
        None => Ok(()),
    }
}

fn hash_word(hash: Hash) -> &'static [u8]
    ensures { result.now ≡ word_at HashChoice (hash_place hash) }
{
    match hash {
        Hash::Sha1 => b"sha1",
        Hash::Sha256 => b"sha256",
    }
}

// Returns the key without effect with this number.
fn extra_key(number: KeyNo) -> ConfKey
    ensures { result ≡ extra_key number }
{
    ConfKey::numbered(number).unwrap_or(ConfKey::Debug)
}

fn push_extra(out: &mut Vec<u8>, extra: &Extra) -> Result<(), AllocError>
    ensures { Grows result out.old.items out.new.items
        (entries_text (extra_entry (extra.now.0, extra.now.1) ∷ [])) }
{
    push_line(
        out,
        extra_key(extra.0).row().name,
        extra.1.as_str().as_bytes(),
    )
}

#[tactic(auto, using(crate::proofs::LineLemmas::more_entries))]
fn push_extras(out: &mut Vec<u8>, extras: &[Extra]) -> Result<(), AllocError>
    ensures { Grows result out.old.items out.new.items (entries_text (map extra_entry extras.now)) }
{
    for extra in extras {
        push_extra(out, extra)?;
    }
    Ok(())
}

/// Prints the first four keys of the whole file.
#[tactic(auto, using(crate::proofs::LineLemmas::early_pushed))]
pub fn push_top(
    out: &mut Vec<u8>,
    port: u16,
    authfile: &Option<PathText>,
    skew: u64,
) -> Result<(), AllocError>
    ensures { Grows result out.old.items out.new.items
        (entries_text (early_entries port authfile.now skew)) }
{
    push_number(out, ConfKey::Port, u64::from(port))?;
    push_line(out, ConfKey::Transport.row().name, b"UDP")?;
    push_authfile(out, authfile)?;
    push_number(out, ConfKey::Maxtimeskew, skew)
}

/// Prints the other keys of the whole file.
#[tactic(auto, using(crate::proofs::LineLemmas::late_pushed))]
pub fn push_late(
    out: &mut Vec<u8>,
    authfile_old: &Option<PathText>,
    auth_hash: Hash,
    extras: &[Extra],
) -> Result<(), AllocError>
    ensures { Grows result out.old.items out.new.items
        (entries_text (late_entries authfile_old.now auth_hash extras.now)) }
{
    push_authfile_old(out, authfile_old)?;
    push_line(out, ConfKey::Authhash.row().name, hash_word(auth_hash))?;
    push_extras(out, extras)
}
