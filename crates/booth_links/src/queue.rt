//! The bytes that a link took and its peer has not, in order, in memory that is allocated once.
ghost use Rattle.std.specs.Prelude.{◌≡◌, ◌≤◌, ◌-◌, ◌++◌, [], IfOk, IsFalse, IsTrue, drop, length, min, take};
ghost use Rattle.booth_links.specs.Queue.{room};

use std::alloc::{AllocError, Global};
use std::marker::Model;

/// The most bytes that a link stores for its peer.
const QUEUE_BYTES: usize = 1_048_576;

/// Up to a mebibyte. Contracts see it as a list.
#[derive(Drop)]
pub(crate) struct Queue {
    bytes: Vec<u8>,
}

impl Model for Queue {
    ghost use Rattle.std.specs.Prelude.{List, ℕ, ◌≤◌, vec_len, vec_capacity};
    ghost use Rattle.booth_links.specs.declared.queue.TheConstants.{QUEUE_BYTES};

    ghost Value = { List ℕ };

    ghost view = { λ q. q.bytes.items };

    ghost invariant = { λ q. (QUEUE_BYTES ≤ vec_capacity q.bytes) × (vec_len q.bytes ≤ QUEUE_BYTES) };
}

impl Queue {
    /// Returns an empty queue, with all its memory.
    pub(crate) fn new(alloc: Global) -> Result<Queue, AllocError>
        ensures { IfOk result (λ queue. queue ≡ []) }
    {
        Ok(Queue {
            bytes: Vec::with_capacity(alloc, QUEUE_BYTES)?,
        })
    }

    /// Returns its bytes, the oldest first.
    pub(crate) fn bytes(&self) -> &[u8]
        ensures value { result.now ≡ self.now }
        ensures short { length result.now ≤ QUEUE_BYTES }
    {
        &self.bytes
    }

    /// Returns whether it has no bytes.
    pub(crate) fn is_empty(&self) -> bool
        ensures empty { IsTrue result → self.now ≡ [] }
        ensures filled { IsFalse result → self.now ≡ [] → ⊥ }
    {
        self.bytes.is_empty()
    }

    /// Drops all bytes.
    pub(crate) fn clear(&mut self)
        ensures { self.new ≡ [] }
    {
        self.bytes.clear();
    }

    /// Drops the first bytes, this many.
    pub(crate) fn pass(&mut self, count: usize)
        requires { count ≤ length self.old }
        ensures { self.new ≡ drop count self.old }
    {
        self.bytes.drain(..count);
    }

    /// Appends as many of these bytes as fit, and returns how many that is.
    pub(crate) fn put(&mut self, more: &[u8]) -> usize
        ensures taken { result ≡ min (room self.old) (length more.now) }
        ensures kept { self.new ≡ self.old ++ take result more.now }
    {
        let taken = more.len().min(QUEUE_BYTES - self.bytes.len());
        self.bytes.extend_from_slice(&more[..taken]).unwrap();
        taken
    }
}
