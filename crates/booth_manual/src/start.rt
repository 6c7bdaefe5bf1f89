//! The rule start.
ghost use Rattle.std.specs.Prelude.{◌≡◌};
ghost use Rattle.booth_manual.specs.Start.{started};

use crate::view::ManualView;
use booth_rec::Record;

// Returns the view of a ticket at a member that starts from this record.
pub(crate) fn started(kept: Record) -> ManualView
    ensures { result ≡ started kept }
{
    ManualView {
        term: kept.term,
        kept,
        sure: true,
        owner: kept.lease.is_some(),
        shown: None,
        waiting: None,
    }
}
