//! The cutter of one stream.
ghost use Rattle.std.specs.Prelude.{◌≡◌, ◌≤◌, ◌<◌, ◌+◌, ◌-◌, ◌++◌, IfOk, length, min, take};
ghost use Rattle.booth_stream.specs.Cut.{IsLength, IsWrong, length_said};
ghost use Rattle.booth_stream.specs.Aim.{MatchAim};
ghost use Rattle.booth_stream.specs.Feeding.{Feeds, IsHeld, fresh};

use crate::buffer::Buffer;
use booth_host::Datagram;
use booth_wire::FRAME_BYTES;
use std::alloc::{AllocError, Global};
use std::marker::Model;

/// The bytes up to the end of a frame's length field.
const NAMED: usize = 28;

/// The size of the smallest frame in bytes.
const HEADER_BYTES: usize = 48;

/// The result of passing a piece.
#[derive(Clone, Copy)]
pub enum Got {
    /// The frame is not whole yet.
    Nothing,
    /// The next frame is whole.
    Frame,
    /// The stream has no next frame.
    Broken,
}

/// How many bytes of the piece were taken, and the result.
#[derive(Clone, Copy)]
pub struct Fed {
    pub taken: usize,
    pub got: Got,
}

/// Joins the pieces of one stream, and returns its frames.
#[derive(Drop)]
pub struct Cutter {
    rest: Buffer,
    broken: bool,
}

impl Model for Cutter {
    ghost use Rattle.booth_stream.specs.Feeding.{Held, IsHeld};

    ghost Value = { Held };

    ghost view = { λ c. record { rest = c.rest; broken = c.broken } };

    ghost invariant = { λ c. IsHeld (record { rest = c.rest; broken = c.broken }) };
}

// What the bytes so far state about the frame's length.
enum Aim {
    Unsaid,
    Wrong,
    Of(usize),
}

// Returns the length that a frame states, if its first 28 bytes are present.
#[tactic(auto, unfolding(crate::specs::Cut::length_said))]
fn length_said(bytes: &[u8]) -> usize
    requires { 28 ≤ length bytes.now }
    ensures { result ≡ length_said bytes.now }
{
    let b = &bytes[24..28];
    u32::from_be_bytes([b[0], b[1], b[2], b[3]]) as usize
}

fn aim_of(bytes: &[u8]) -> Aim
    ensures { MatchAim result (length bytes.now < 28) ((28 ≤ length bytes.now) × IsWrong (length_said bytes.now))
        (λ n. (28 ≤ length bytes.now) × (n ≡ length_said bytes.now) × IsLength n) }
{
    if bytes.len() < NAMED {
        return Aim::Unsaid;
    }
    let said = length_said(bytes);
    if said < HEADER_BYTES || said > FRAME_BYTES {
        Aim::Wrong
    } else {
        Aim::Of(said)
    }
}

// Takes bytes of the piece until the buffer has this many.
fn fill(rest: &mut Buffer, to: usize, piece: &[u8]) -> usize
    requires { to ≤ FRAME_BYTES }
    ensures taken { result ≡ min (to - length rest.old) (length piece.now) }
    ensures rest { rest.new ≡ rest.old ++ take result piece.now }
{
    let missing = to.saturating_sub(rest.bytes().len());
    let taken = missing.min(piece.len());
    rest.put(&piece[..taken]);
    taken
}

impl Cutter {
    /// Returns a cutter at the start of a stream, with all the memory that it will need.
    pub fn new(alloc: Global) -> Result<Cutter, AllocError>
        ensures { IfOk result (λ cutter. cutter ≡ fresh) }
    {
        Ok(Cutter {
            rest: Buffer::new(alloc)?,
            broken: false,
        })
    }

    /// Returns whether the stream is broken: no frame can follow.
    pub fn is_broken(&self) -> bool
        ensures broken { result ≡ self.now.broken }
        ensures sound { IsHeld self.now }
    {
        self.broken
    }

    /// Starts another stream, and drops the bytes of the last one.
    pub fn restart(&mut self)
        ensures { self.new ≡ fresh }
    {
        self.rest.clear();
        self.broken = false;
    }

    /// Takes the bytes of the next piece that complete the next frame, and puts the frame into `into`. It allocates
    /// no memory.
    pub fn feed(&mut self, piece: &[u8], into: &mut Datagram) -> Fed
        ensures { Feeds self.old piece.now result into.old into.new self.new }
    {
        if self.broken {
            return Fed {
                taken: 0,
                got: Got::Broken,
            };
        }
        let named = fill(&mut self.rest, NAMED, piece);
        match aim_of(self.rest.bytes()) {
            Aim::Unsaid => Fed {
                taken: named,
                got: Got::Nothing,
            },
            Aim::Wrong => {
                self.broken = true;
                Fed {
                    taken: named,
                    got: Got::Broken,
                }
            }
            Aim::Of(len) => {
                let (_, later) = piece.split_at(named);
                let more = fill(&mut self.rest, len, later);
                let taken = named + more;
                if self.rest.bytes().len() < len {
                    return Fed {
                        taken,
                        got: Got::Nothing,
                    };
                }
                self.rest.give(into);
                Fed {
                    taken,
                    got: Got::Frame,
                }
            }
        }
    }
}
