//! The table of keys: the number, the name, the scope and the form of each.
ghost use Rattle.std.specs.Prelude.{◌≡◌, ◌≤◌, ◌==◌, bytes_eq, length, IfSome};
ghost use Rattle.booth_conf.specs.Keys.{IsRow, are_one, has_number, row, is_named, key_named, key_numbered, name_at, number_of, row_of, Names};

use crate::limits::{LEAST_RETRIES, MOST_RETRIES, SECONDS};

/// The number of a key: 1 to 24.
#[derive(Clone, Copy, Debug, PartialEq, Eq)]
pub struct KeyNo(pub u8);

/// Words, one of which is a value.
#[derive(Clone, Copy)]
pub enum Choice {
    Transport,
    Mode,
    Hash,
    Steady,
}

/// The form that the value of a key must have.
#[derive(Clone, Copy)]
pub enum Form {
    /// A number in this range.
    Number { least: u32, most: u32 },
    /// A text of at least this many bytes.
    Text { least: usize },
    /// A path and its arguments.
    Command,
    /// One of these words.
    OneOf(Choice),
    Address,
    TicketName,
    Weights,
    Prereq,
}

/// A key.
#[derive(Clone, Copy)]
pub enum ConfKey {
    Port,
    Transport,
    Authfile,
    Maxtimeskew,
    Debug,
    SiteUser,
    SiteGroup,
    ArbitratorUser,
    ArbitratorGroup,
    Site,
    Arbitrator,
    Ticket,
    Expire,
    AcquireAfter,
    Timeout,
    Retries,
    RenewalFreq,
    Weights,
    BeforeAcquireHandler,
    AttrPrereq,
    Mode,
    AuthfileOld,
    Authhash,
    Steady,
}

/// The scope of a key: the whole file, or the last `ticket` line.
#[derive(Clone, Copy)]
pub enum Scope {
    File,
    Ticket,
}

/// The row of a key in the table.
#[derive(Clone, Copy)]
pub struct Row {
    pub number: KeyNo,
    pub name: &'static str,
    pub scope: Scope,
    pub form: Form,
}

impl Row {
    fn file(number: u8, name: &'static str, form: Form) -> Row
        ensures { IsRow result (row number name.entry.now Scope.File form) }
    {
        Row {
            number: KeyNo(number),
            name,
            scope: Scope::File,
            form,
        }
    }

    fn ticket(number: u8, name: &'static str, form: Form) -> Row
        ensures { IsRow result (row number name.entry.now Scope.Ticket form) }
    {
        Row {
            number: KeyNo(number),
            name,
            scope: Scope::Ticket,
            form,
        }
    }
}

fn number(least: u32, most: u32) -> Form
    ensures { result ≡ Form.Number least most }
{
    Form::Number { least, most }
}

fn text(least: usize) -> Form
    ensures { result ≡ Form.Text least }
{
    Form::Text { least }
}

impl ConfKey {
    /// Each key, in the order of their numbers.
    const ALL: [ConfKey; 24] = [
        ConfKey::Port,
        ConfKey::Transport,
        ConfKey::Authfile,
        ConfKey::Maxtimeskew,
        ConfKey::Debug,
        ConfKey::SiteUser,
        ConfKey::SiteGroup,
        ConfKey::ArbitratorUser,
        ConfKey::ArbitratorGroup,
        ConfKey::Site,
        ConfKey::Arbitrator,
        ConfKey::Ticket,
        ConfKey::Expire,
        ConfKey::AcquireAfter,
        ConfKey::Timeout,
        ConfKey::Retries,
        ConfKey::RenewalFreq,
        ConfKey::Weights,
        ConfKey::BeforeAcquireHandler,
        ConfKey::AttrPrereq,
        ConfKey::Mode,
        ConfKey::AuthfileOld,
        ConfKey::Authhash,
        ConfKey::Steady,
    ];

    /// Returns the key's row in the table.
    pub fn row(self) -> Row
        ensures row { IsRow result (row_of self) }
        ensures short { length result.name.now ≤ 22 }
    {
        match self {
            ConfKey::Port => Row::file(1, "port", number(1, 65_535)),
            ConfKey::Transport => Row::file(2, "transport", Form::OneOf(Choice::Transport)),
            ConfKey::Authfile => Row::file(3, "authfile", text(1)),
            ConfKey::Maxtimeskew => Row::file(4, "maxtimeskew", number(1, SECONDS)),
            ConfKey::Debug => Row::file(5, "debug", text(0)),
            ConfKey::SiteUser => Row::file(6, "site-user", text(0)),
            ConfKey::SiteGroup => Row::file(7, "site-group", text(0)),
            ConfKey::ArbitratorUser => Row::file(8, "arbitrator-user", text(0)),
            ConfKey::ArbitratorGroup => Row::file(9, "arbitrator-group", text(0)),
            ConfKey::Site => Row::file(10, "site", Form::Address),
            ConfKey::Arbitrator => Row::file(11, "arbitrator", Form::Address),
            ConfKey::Ticket => Row::file(12, "ticket", Form::TicketName),
            ConfKey::Expire => Row::ticket(13, "expire", number(1, SECONDS)),
            ConfKey::AcquireAfter => Row::ticket(14, "acquire-after", number(0, SECONDS)),
            ConfKey::Timeout => Row::ticket(15, "timeout", number(1, SECONDS)),
            ConfKey::Retries => Row::ticket(16, "retries", number(LEAST_RETRIES, MOST_RETRIES)),
            ConfKey::RenewalFreq => Row::ticket(17, "renewal-freq", number(1, SECONDS)),
            ConfKey::Weights => Row::ticket(18, "weights", Form::Weights),
            ConfKey::BeforeAcquireHandler => Row::ticket(
                19,
                "before-acquire-handler",
                Form::Command,
            ),
            ConfKey::AttrPrereq => Row::ticket(20, "attr-prereq", Form::Prereq),
            ConfKey::Mode => Row::ticket(21, "mode", Form::OneOf(Choice::Mode)),
            ConfKey::AuthfileOld => Row::file(22, "authfile-old", text(1)),
            ConfKey::Authhash => Row::file(23, "authhash", Form::OneOf(Choice::Hash)),
            ConfKey::Steady => Row::ticket(24, "steady", Form::OneOf(Choice::Steady)),
        }
    }

    /// Returns the number of the key.
    pub fn number(self) -> KeyNo
        ensures { result ≡ number_of self }
    {
        self.row().number
    }

    /// Returns the form of its value.
    pub fn form(self) -> Form
        ensures { result ≡ (row_of self).form }
    {
        self.row().form
    }

    /// Returns whether this is that key.
    pub fn is(self, key: ConfKey) -> bool
        ensures { result ≡ are_one key self }
    {
        self.row().number.0 == key.row().number.0
    }

    fn is_named(self, name: &[u8]) -> bool
        ensures { result ≡ is_named name.now self }
    {
        self.row().name.as_bytes() == name
    }

    fn has_number(self, number: KeyNo) -> bool
        ensures { result ≡ has_number number self }
    {
        self.row().number.0 == number.0
    }

    /// Returns the key with this name.
    pub fn named(name: &[u8]) -> Option<ConfKey>
        ensures { result ≡ key_named name.now }
    {
        ConfKey::ALL.iter().copied().find(|key| key.is_named(name))
    }

    /// Returns the key with this number.
    pub fn numbered(number: KeyNo) -> Option<ConfKey>
        ensures { result ≡ key_numbered number }
    {
        ConfKey::ALL
            .iter()
            .copied()
            .find(|key| key.has_number(number))
    }
}

impl KeyNo {
    /// Returns the name of the key, as a text of a configuration has it; none if no key has this number.
    pub fn name(self) -> Option<&'static str>
        ensures name { Names result (name_at self) }
        ensures short { IfSome result (λ name. length name.now ≤ 22) }
    {
        match ConfKey::numbered(self) {
            Some(key) => Some(key.row().name),
            None => None,
        }
    }
}
