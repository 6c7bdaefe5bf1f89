//! The fields of a line, with one blank between them.
ghost use Rattle.std.specs.Prelude.{◌≡◌, List, [], ℕ, IfOk, Err, MatchBool};
ghost use Rattle.hex.specs.Hex.{encode_lower};
ghost use Rattle.hex.specs.declared.error.FromHexError.TheVariants.{OutOfMemory as HexMemory};
ghost use Rattle.booth_base.specs.Address.{IsAddress};
ghost use Rattle.booth_journal.specs.Fields.{HasNo, IsCut};
ghost use Rattle.booth_journal.specs.Reading.{AreOctets, ReadsAs, SpellsAddress, SpellsBytes, SpellsDatagram, SpellsLocal, SpellsName, SpellsNumber, SpellsPort, SpellsRecord, SpellsStatus};
ghost use Rattle.booth_journal.specs.declared.fields.LineFault.TheVariants.{NoLine};

use crate::cutting::cut;
use booth_base::{Address, ByteText, Name, Peer};
use booth_rec::Record;
use hex::FromHexError;
use itoa::Buffer;
use std::alloc::{AllocError, Global};
use thiserror::Error;

/// Why a text could not be read.
#[derive(Clone, Copy, Debug, Drop, Error)]
pub enum LineFault {
    #[error("the text is no line of a journal")]
    NoLine,
    #[error("there is no memory for what the line says")]
    OutOfMemory,
}

/// Bytes that go to a peer, or come from it.
#[derive(Drop)]
pub(crate) struct Carried {
    pub(crate) peer: Peer,
    pub(crate) bytes: ByteText,
}

/// Returns the number with this text.
pub(crate) fn number(text: &[u8]) -> Result<u64, LineFault>
    ensures { ReadsAs (SpellsNumber text.now) result }
{
    let Ok(word) = std::str::from_utf8(text) else {
        return Err(LineFault::NoLine);
    };
    let Ok(number) = word.parse::<u64>() else {
        return Err(LineFault::NoLine);
    };
    let mut digits = Buffer::new();
    if digits.format(number) == word {
        Ok(number)
    } else {
        Err(LineFault::NoLine)
    }
}

/// Returns the status with this text.
pub(crate) fn status(text: &[u8]) -> Result<i32, LineFault>
    ensures { ReadsAs (SpellsStatus text.now) result }
{
    let Ok(word) = std::str::from_utf8(text) else {
        return Err(LineFault::NoLine);
    };
    let Ok(status) = word.parse::<i32>() else {
        return Err(LineFault::NoLine);
    };
    let mut digits = Buffer::new();
    if digits.format(status) == word {
        Ok(status)
    } else {
        Err(LineFault::NoLine)
    }
}

fn port(text: &[u8]) -> Result<u16, LineFault>
    ensures { ReadsAs (SpellsPort text.now) result }
{
    match number(text) {
        Ok(number) if number < 65_536 => Ok(number as u16),
        Ok(_) => Err(LineFault::NoLine),
        Err(fault) => Err(fault),
    }
}

/// Returns the name with these bytes.
pub(crate) fn name(text: &[u8]) -> Result<Name, LineFault>
    ensures { ReadsAs (SpellsName text.now) result }
{
    match Name::read(text) {
        Ok(name) => Ok(name),
        Err(_) => Err(LineFault::NoLine),
    }
}

// Returns whether an address has 4 or 16 bytes.
fn is_whole(address: Address)
    ensures { IsAddress address }
{
    match address {
        Address::V4(_) | Address::V6(_) => {}
    }
}

// Returns the address with this text: only its printed text is a field.
fn address(text: &[u8]) -> Result<Address, LineFault>
    ensures { ReadsAs (SpellsAddress text.now) result }
{
    let Ok(address) = Address::read(text) else {
        return Err(LineFault::NoLine);
    };
    is_whole(address);
    if address.print().as_bytes() == text {
        Ok(address)
    } else {
        Err(LineFault::NoLine)
    }
}

/// Returns the address to listen at.
pub(crate) fn local(text: &[u8]) -> Result<Option<Address>, LineFault>
    ensures { ReadsAs (SpellsLocal text.now) result }
{
    if text == b"-".as_slice() {
        return Ok(None);
    }
    Ok(Some(address(text)?))
}

fn fault_of(error: FromHexError) -> LineFault
    ensures { result ≡ NoLine → error ≡ HexMemory → ⊥ }
{
    match error {
        FromHexError::OutOfMemory => LineFault::OutOfMemory,
        FromHexError::InvalidHexCharacter { .. }
        | FromHexError::OddLength
        | FromHexError::InvalidStringLength => LineFault::NoLine,
    }
}

// Returns the bytes of hexadecimal digits in lower case.
fn octets(alloc: Global, text: &[u8]) -> Result<Vec<u8>, LineFault>
    ensures found { IfOk result (λ bytes. AreOctets bytes.items × (text.now ≡ encode_lower bytes.items)) }
    ensures none { result ≡ Err NoLine → (bytes : List ℕ) → AreOctets bytes → text.now ≡ encode_lower bytes → ⊥ }
{
    let bytes = match hex::decode(alloc, text) {
        Ok(bytes) => bytes,
        Err(error) => return Err(fault_of(error)),
    };
    let Ok(again) = hex::encode(alloc, bytes.as_slice()) else {
        return Err(LineFault::OutOfMemory);
    };
    if again.as_bytes() == text {
        Ok(bytes)
    } else {
        Err(LineFault::NoLine)
    }
}

fn is_nothing(text: &[u8]) -> bool
    ensures { MatchBool result (text.now ≡ []) (text.now ≡ [] → ⊥) }
{
    text.is_empty()
}

// Returns bytes; `-` spells none.
fn bytes_of(alloc: Global, text: &[u8]) -> Result<ByteText, LineFault>
    ensures { ReadsAs (SpellsBytes text.now) result }
{
    if is_nothing(text) {
        return Err(LineFault::NoLine);
    }
    if text == b"-".as_slice() {
        return Ok(ByteText::from_vec(Vec::new(alloc)));
    }
    Ok(ByteText::from_vec(octets(alloc, text)?))
}

/// Returns the record whose bytes are written as this text.
pub(crate) fn record_of(alloc: Global, text: &[u8]) -> Result<Record, LineFault>
    ensures { ReadsAs (SpellsRecord text.now) result }
{
    match octets(alloc, text) {
        Ok(bytes) => match Record::decode(&bytes) {
            Ok(kept) => Ok(kept),
            Err(_) => Err(LineFault::NoLine),
        },
        Err(fault) => Err(fault),
    }
}

/// Returns a peer and bytes.
pub(crate) fn datagram(alloc: Global, text: &[u8]) -> Result<Carried, LineFault>
    ensures { ReadsAs (SpellsDatagram text.now) result }
{
    let Some((first, more)) = cut(b' ', text) else {
        return Err(LineFault::NoLine);
    };
    let Some((second, third)) = cut(b' ', more) else {
        return Err(LineFault::NoLine);
    };
    let address = match address(first) {
        Ok(address) => address,
        Err(fault) => return Err(fault),
    };
    let port = match port(second) {
        Ok(port) => port,
        Err(fault) => return Err(fault),
    };
    match bytes_of(alloc, third) {
        Ok(bytes) => Ok(Carried {
            peer: Peer { address, port },
            bytes,
        }),
        Err(fault) => Err(fault),
    }
}
