//! The ticket of a configuration.
ghost use Rattle.booth_base.specs.declared.limits.TheConstants.{MEMBERS};
ghost use Rattle.std.specs.Prelude.{◌≡◌, ◌≤◌, IfOk, length};

use arrayvec::ArrayVec;
use booth_base::{AttrValue, MEMBERS, Name, PathText, Times};
use std::alloc::{AllocError, Global};
use std::marker::Model;

/// How a ticket is granted: by an election, or by an operator.
#[derive(Clone, Copy, PartialEq, Eq)]
pub enum GrantKind {
    Auto,
    Manual,
}

/// The value that an attribute must have before a ticket is granted in one way.
#[derive(Drop)]
pub struct Prereq {
    /// The kind of grant that needs it.
    pub kind: GrantKind,
    /// The attribute.
    pub name: Name,
    /// Whether the attribute must have the value, or must not have it.
    pub equal: bool,
    pub value: AttrValue,
}

impl Prereq {
    /// Returns an equal prerequisite.
    pub fn copy(&self) -> Prereq
        ensures { result ≡ self.now }
    {
        Prereq {
            kind: self.kind,
            name: self.name.copy(),
            equal: self.equal,
            value: self.value.copy(),
        }
    }
}

/// The prerequisites of a ticket, in the order of the file. An empty list takes no memory. Contracts see a list of
/// them.
#[derive(Drop)]
pub struct Prereqs {
    list: Vec<Prereq>,
}

impl Model for Prereqs {
    ghost use Rattle.std.specs.Prelude.{List};
    ghost use Rattle.booth_conf.specs.declared.tickets.Prereq.{Prereq};

    ghost Value = { List Prereq };

    ghost view = { λ p. p.list.items };
}

fn copy_list(alloc: Global, prereqs: &[Prereq]) -> Result<Vec<Prereq>, AllocError>
    ensures { IfOk result (λ v. v.items ≡ prereqs.now) }
{
    let mut copied = Vec::with_capacity(alloc, prereqs.len())?;
    for prereq in prereqs {
        copied.push(prereq.copy())?;
    }
    Ok(copied)
}

impl Prereqs {
    /// Returns the prerequisites in `list`.
    pub(crate) fn of(list: Vec<Prereq>) -> Prereqs
        ensures { result ≡ list.items }
    {
        Prereqs { list }
    }

    /// Returns all of them, in their order.
    pub fn all(&self) -> &[Prereq]
        ensures { result.now ≡ self.now }
    {
        &self.list
    }

    /// Returns equal ones.
    pub fn copy(&self, alloc: Global) -> Result<Prereqs, AllocError>
        ensures { IfOk result (λ copied. copied ≡ self.now) }
    {
        let list = copy_list(alloc, &self.list)?;
        Ok(Prereqs { list })
    }
}

/// A ticket. Its times are in milliseconds.
#[derive(Drop)]
pub struct TicketConf {
    pub name: Name,
    /// Whether only an operator grants it.
    pub manual: bool,
    pub times: Times,
    /// Whether its members follow the steady rules.
    pub steady: bool,
    /// The weights of the members in their order, as in the file. A missing weight is 0.
    pub weights: ArrayVec<u32, MEMBERS>,
    /// The path and the arguments of the program that runs before the ticket is acquired.
    pub handler: Option<PathText>,
    pub prereqs: Prereqs,
}

/// Returns an equal list of weights.
pub fn copy_weights(weights: &[u32]) -> ArrayVec<u32, MEMBERS>
    requires { length weights.now ≤ MEMBERS }
    ensures { result.items ≡ weights.now }
{
    let mut copied = ArrayVec::new();
    copied.try_extend_from_slice(weights).unwrap();
    copied
}

/// Returns a copy of the path, if there is one.
pub fn copy_path(path: &Option<PathText>) -> Option<PathText>
    ensures { result ≡ path.now }
{
    match path {
        Some(path) => Some(path.copy()),
        None => None,
    }
}

impl TicketConf {
    /// Returns an equal ticket.
    pub fn copy(&self, alloc: Global) -> Result<TicketConf, AllocError>
        ensures { IfOk result (λ ticket. ticket ≡ self.now) }
    {
        Ok(TicketConf {
            name: self.name.copy(),
            manual: self.manual,
            times: self.times,
            steady: self.steady,
            weights: copy_weights(&self.weights),
            handler: copy_path(&self.handler),
            prereqs: self.prereqs.copy(alloc)?,
        })
    }
}
