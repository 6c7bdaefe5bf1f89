//! The buckets of a timer.
ghost use Rattle.std.specs.Prelude.{◌≡◌};
ghost use Rattle.booth_chain.specs.Slots.{bucket_of};

/// The length of a bucket in milliseconds.
pub(crate) const SPAN_MS: u64 = 128;

/// The number of buckets.
pub(crate) const BUCKETS: u64 = 512;

/// The list of the slots without a deadline, after the lists of the buckets.
pub(crate) const UNSET: u32 = 512;

/// The number of lists.
pub(crate) const LISTS: u32 = 513;

/// Returns the list of a deadline. `swept` is the latest moment at which nothing was due.
pub(crate) fn bucket_of(swept: u64, deadline: Option<u64>) -> u32
    ensures { result ≡ bucket_of swept deadline }
{
    match deadline {
        Some(deadline) => (deadline.max(swept) / SPAN_MS % BUCKETS) as u32,
        None => UNSET,
    }
}
