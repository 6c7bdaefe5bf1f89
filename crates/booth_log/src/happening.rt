//! How the write of a record changed the lease of a ticket.
ghost use Rattle.std.specs.Prelude.{◌≡◌};
ghost use Rattle.booth_log.specs.Happenings.{lease_change};

use booth_rec::Lease;

/// How a call changed a lease.
#[derive(Clone, Copy)]
pub(crate) enum Happening {
    Gains(Lease),
    GivesBack(Lease),
    FailsToKeep(Lease),
    FailsToGiveBack(Lease),
    /// It was written before the daemon started.
    Begins(Lease),
}

/// How a write ended.
#[derive(Clone, Copy)]
pub(crate) enum Ending {
    Kept,
    Failed,
}

/// Returns what a write changed, by the lease that was written before it, the lease of its record, and how it ended.
pub(crate) fn lease_change(
    before: Option<Lease>,
    lease: Option<Lease>,
    ending: Ending,
) -> Option<Happening>
    ensures { result ≡ lease_change before lease ending }
{
    match (before, lease, ending) {
        (None, None, _) => None,
        (None, Some(lease), Ending::Kept) => Some(Happening::Gains(lease)),
        (None, Some(lease), Ending::Failed) => Some(Happening::FailsToKeep(lease)),
        (Some(before), None, Ending::Kept) => Some(Happening::GivesBack(before)),
        (Some(before), None, Ending::Failed) => Some(Happening::FailsToGiveBack(before)),
        (Some(before), Some(lease), Ending::Kept) => {
            if before.term == lease.term {
                None
            } else {
                Some(Happening::Gains(lease))
            }
        }
        (Some(before), Some(lease), Ending::Failed) => {
            if before.term == lease.term && before.until == lease.until {
                None
            } else {
                Some(Happening::FailsToKeep(lease))
            }
        }
    }
}
