//! Whether the prerequisites of a grant hold.
ghost use Rattle.std.specs.Prelude.{◌≡◌, ◌<◌, length};
ghost use Rattle.std.specs.List.{list_all};
ghost use Rattle.booth_attr.specs.Attributes.{pairs_of};
ghost use Rattle.booth_attr.specs.Prerequisites.{has_value, is_met, holds_for};

use crate::attrs::Attrs;
use booth_base::{AttrValue, Name};
use booth_conf::{GrantKind, Prereq};

impl Attrs {
    /// Returns whether all prerequisites of this kind hold.
    pub fn holds(&self, ticket: u32, prereqs: &[Prereq], kind: GrantKind) -> bool
        requires { ticket < length self.now.lists }
        ensures { result ≡ list_all (holds_for kind (pairs_of self.now ticket)) prereqs.now }
    {
        prereqs
            .iter()
            .all(|prereq| prereq.kind != kind || self.meets(ticket, prereq))
    }

    fn meets(&self, ticket: u32, prereq: &Prereq) -> bool
        requires { ticket < length self.now.lists }
        ensures { result ≡ is_met (pairs_of self.now ticket) prereq.now }
    {
        self.has_value(ticket, &prereq.name, &prereq.value) == prereq.equal
    }

    fn has_value(&self, ticket: u32, name: &Name, value: &AttrValue) -> bool
        requires { ticket < length self.now.lists }
        ensures { result ≡ has_value name.now value.now (pairs_of self.now ticket) }
    {
        match self.get(ticket, name) {
            Some(found) => found.bytes() == value.bytes(),
            None => false,
        }
    }
}
