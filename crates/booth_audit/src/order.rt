//! Holdings in the order of tickets.
ghost use Rattle.std.specs.Prelude.{◌≡◌, ◌<◌, ℕ, OnOk};
ghost use Rattle.std.specs.List.{All};
ghost use Rattle.booth_audit.specs.Order.{by_tickets};

use crate::Holding;
use std::alloc::AllocError;

/// Sorts holdings by ticket. The holdings of one ticket keep their order.
pub(crate) fn sort_by_ticket(held: &mut Vec<Holding>) -> Result<(), AllocError>
    ensures { OnOk result ((count : ℕ) → All (λ holding. holding.ticket < count) held.old.items
        → held.new.items ≡ by_tickets held.old.items 0 count) }
{
    held.sort_by_key(|holding| holding.ticket)?;
    Ok(())
}
