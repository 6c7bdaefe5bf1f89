//! The answer of an audit.
ghost use Rattle.std.specs.Prelude.{◌≡◌};

use crate::{Holding, SilentStart};
use std::marker::Model;

/// The answer for the journals of a cluster: which member held which ticket when, and which starts were silent.
#[derive(Drop)]
pub struct Audit {
    holdings: Vec<Holding>,
    silent: Vec<SilentStart>,
}

impl Model for Audit {
    ghost use Rattle.booth_audit.specs.Audit.{AuditSays};

    ghost Value = { AuditSays };

    ghost view = { λ a. record { holdings = a.holdings.items; silent = a.silent.items } };
}

impl Audit {
    pub(crate) fn new(holdings: Vec<Holding>, silent: Vec<SilentStart>) -> Audit
        ensures { result ≡ record { holdings = holdings.items; silent = silent.items } }
    {
        Audit { holdings, silent }
    }

    /// Returns the holdings, ordered by ticket, then journal, then line.
    pub fn holdings(&self) -> &[Holding]
        ensures { result.now ≡ self.now.holdings }
    {
        &self.holdings
    }

    /// Returns the silent starts, ordered by journal, then line.
    pub fn silent(&self) -> &[SilentStart]
        ensures { result.now ≡ self.now.silent }
    {
        &self.silent
    }
}
