//! The argument that is refused.

/// An argument that is refused, by its kind.
#[derive(Clone, Copy, Debug, PartialEq, Eq)]
pub enum Word {
    /// The name of a ticket.
    Ticket,
    /// The name of an attribute.
    Name,
    /// The value of an attribute.
    Value,
    /// The address of a member or of a daemon.
    Site,
    /// A number.
    Number,
    /// The path of the lock or of the records.
    Path,
    /// The program of a service.
    Program,
    /// The path of the configuration.
    Configuration,
}
