//! The programs, by their names.
ghost use Rattle.std.specs.Prelude.{◌≡◌, ◌≤◌, length};
ghost use Rattle.booth_cli.specs.Commands.{name_of};

/// A program.
#[derive(Clone, Copy)]
pub enum Program {
    /// The daemon.
    Boothd,
    /// The client.
    Booth,
    /// The client for attributes.
    Geostore,
    /// Has a service follow its ticket.
    BoothFollow,
}

impl Program {
    /// Returns the name at the start of each of its lines.
    pub fn name(self) -> &'static str
        ensures name { result.now ≡ name_of self }
        ensures short { length result.now ≤ 12 }
    {
        match self {
            Program::Boothd => "boothd",
            Program::Booth => "booth",
            Program::Geostore => "geostore",
            Program::BoothFollow => "booth-follow",
        }
    }
}
