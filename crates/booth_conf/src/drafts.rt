//! A configuration while its lines are read.
ghost use Rattle.std.specs.Prelude.{◌≡◌, ◌++◌, ◌∷◌, [], ◌<◌, false, length, vec_len, map, IfOk, OnOk, OnErr};
ghost use Rattle.std.specs.List.{list_any};
ghost use Rattle.booth_conf.specs.Answers.{Answers};
ghost use Rattle.booth_conf.specs.Rules.{clash, has_name, is_misplaced, name_of, open_section, placed_clash, prereqs_of, said_fault, summary, value_fault};
ghost use Rattle.booth_conf.specs.SaidReader.{said};
ghost use Rattle.booth_conf.specs.Steps.{added, last_added, said_added, value_added};
ghost use Rattle.booth_conf.specs.declared.sections.NamedSection.{NamedSection as NamedSectionOf};

use crate::faults::{LineFault, Stop};
use crate::keys::{ConfKey, Scope};
use crate::limits::TICKETS;
use crate::line_meaning::{Said, read_line};
use crate::members::{Member, MemberList};
use crate::sections::{NamedSection, Section};
use crate::settings::{Entry, Setting};
use booth_base::{MEMBERS, Name};
use indexmap::IndexSet;
use std::alloc::{AllocError, Global};
use std::marker::Model;

/// Tickets with different names, in the order of the file.
#[derive(Drop)]
pub struct SectionList<'a> {
    names: IndexSet<Name>,
    sections: Vec<NamedSection<'a>>,
}

impl<'a> Model for SectionList<'a> {
    ghost use Rattle.std.specs.Prelude.{◌≡◌, List, map};
    ghost use Rattle.booth_conf.specs.Rules.{name_of};
    ghost use Rattle.booth_conf.specs.declared.sections.NamedSection.{NamedSection};

    ghost Value = { List NamedSection };

    ghost view = { λ l. l.sections.items };

    ghost invariant = { λ l. l.names.keys ≡ map name_of l.sections.items };
}

/// The names of tickets, and their sections, in the same order.
#[derive(Drop)]
pub struct NamesAndSections<'a> {
    pub names: IndexSet<Name>,
    pub sections: Vec<NamedSection<'a>>,
}

impl<'a> SectionList<'a> {
    fn new(alloc: Global) -> SectionList<'a>
        ensures { result ≡ [] }
    {
        SectionList {
            names: IndexSet::new(alloc),
            sections: Vec::new(alloc),
        }
    }

    fn len(&self) -> usize
        ensures { result ≡ length self.now }
    {
        self.sections.len()
    }

    fn has(&self, name: &Name) -> bool
        ensures { result ≡ list_any (has_name name.now) self.now }
    {
        self.names.contains(name)
    }

    // Adds a ticket with a new name. If the memory has run out, nothing changes.
    fn push(&mut self, name: Name, section: Section<'a>) -> Result<(), AllocError>
        requires { list_any (has_name name) self.old ≡ false }
        ensures ok { OnOk result (self.new ≡ self.old ++ (record { name = name; section = section.entry }) ∷ []) }
        ensures err { OnErr result (self.new ≡ self.old) }
    {
        self.sections.reserve(1)?;
        let named = NamedSection {
            name: name.copy(),
            section,
        };
        self.names.insert(name)?;
        self.sections.push(named).unwrap();
        Ok(())
    }

    // Adds an entry to the last ticket, or returns its fault.
    fn add(&mut self, entry: Entry<'a>) -> Result<(), Stop>
        requires { 0 < length self.old }
        ensures { Answers result self.new (placed_clash (open_section None self.old) entry.entry)
            self.old (last_added self.old entry.entry) }
    {
        add_to_last(&mut self.sections, entry)
    }

    /// Returns the names and the sections.
    pub fn into_sections(self) -> NamesAndSections<'a>
        ensures sections { result.sections.items ≡ self.entry }
        ensures names { result.names.keys ≡ map name_of self.entry }
    {
        let SectionList { names, sections } = self;
        NamesAndSections { names, sections }
    }
}

#[tactic(auto, using(crate::proofs::LastLemmas::open_last, crate::proofs::LastLemmas::added_last))]
fn add_to_last<'a>(sections: &mut Vec<NamedSection<'a>>, entry: Entry<'a>) -> Result<(), Stop>
    requires { 0 < vec_len sections.old }
    ensures { Answers result sections.new.items
        (placed_clash (open_section None sections.old.items) entry.entry)
        sections.old.items (last_added sections.old.items entry.entry) }
{
    let last = sections.len() - 1;
    sections[last].section.add(entry)
}

/// The settings of the lines so far.
#[derive(Drop)]
pub struct Draft<'a> {
    pub top: Section<'a>,
    pub members: MemberList,
    pub defaults: Option<Section<'a>>,
    pub tickets: SectionList<'a>,
}

impl<'a> Model for Draft<'a> {
    ghost use Rattle.booth_conf.specs.Rules.{Summary};

    ghost Value = { Summary };

    ghost view = { λ d. record { top = d.top; members = d.members; defaults = d.defaults; tickets = d.tickets } };
}

impl<'a> Draft<'a> {
    pub fn new(alloc: Global) -> Draft<'a>
        ensures { result ≡ summary [] }
    {
        Draft {
            top: Section::new(alloc),
            members: MemberList::new(alloc),
            defaults: None,
            tickets: SectionList::new(alloc),
        }
    }

    fn add_member(&mut self, member: Member) -> Result<(), Stop>
        ensures { Answers result self.new (clash self.old (Setting.Member member))
            self.old (added self.old (Setting.Member member)) }
    {
        if self.members.has(member.address) {
            return Err(Stop::Line(LineFault::Repeated));
        }
        if self.members.len() >= MEMBERS {
            return Err(Stop::Line(LineFault::TooMany));
        }
        self.members.push(member).map_err(|_| Stop::Memory)
    }

    // Returns what a new ticket inherits from the defaults.
    fn inherited(&self, alloc: Global) -> Result<Section<'a>, AllocError>
        ensures { IfOk result (λ section. section ≡ prereqs_of self.now.defaults) }
    {
        match &self.defaults {
            Some(section) => section.inherited(alloc),
            None => Ok(Section::new(alloc)),
        }
    }

    fn add_ticket(&mut self, alloc: Global, name: Name) -> Result<(), Stop>
        ensures { Answers result self.new (clash self.old (Setting.Ticket name))
            self.old (added self.old (Setting.Ticket name)) }
    {
        if self.tickets.has(&name) {
            return Err(Stop::Line(LineFault::Repeated));
        }
        if self.tickets.len() >= TICKETS {
            return Err(Stop::Line(LineFault::TooMany));
        }
        match self.inherited(alloc) {
            Ok(section) => self.tickets.push(name, section).map_err(|_| Stop::Memory),
            Err(_) => Err(Stop::Memory),
        }
    }

    fn add_defaults(&mut self, alloc: Global) -> Result<(), Stop>
        ensures { Answers result self.new (clash self.old Setting.Defaults)
            self.old (added self.old Setting.Defaults) }
    {
        if self.defaults.is_some() {
            return Err(Stop::Line(LineFault::Repeated));
        }
        if self.tickets.len() > 0 {
            return Err(Stop::Line(LineFault::DefaultLate));
        }
        self.defaults = Some(Section::new(alloc));
        Ok(())
    }

    fn add_of_ticket(&mut self, entry: Entry<'a>) -> Result<(), Stop>
        ensures { Answers result self.new (clash self.old (Setting.Of entry.entry))
            self.old (added self.old (Setting.Of entry.entry)) }
    {
        if self.tickets.len() > 0 {
            return self.tickets.add(entry);
        }
        match &mut self.defaults {
            Some(section) => section.add(entry),
            None => Err(Stop::Line(LineFault::Misplaced)),
        }
    }

    fn add(&mut self, alloc: Global, setting: Setting<'a>) -> Result<(), Stop>
        ensures { Answers result self.new (clash self.old setting.entry)
            self.old (added self.old setting.entry) }
    {
        match setting {
            Setting::File(entry) => self.top.add(entry),
            Setting::Member(member) => self.add_member(member),
            Setting::Ticket(name) => self.add_ticket(alloc, name),
            Setting::Defaults => self.add_defaults(alloc),
            Setting::Of(entry) => self.add_of_ticket(entry),
        }
    }

    fn add_value(
        &mut self,
        alloc: Global,
        key: ConfKey,
        setting: Option<Setting<'a>>,
    ) -> Result<(), Stop>
        ensures { Answers result self.new (value_fault key self.old setting.entry)
            self.old (value_added self.old setting.entry) }
    {
        match setting {
            Some(setting) => self.add(alloc, setting),
            None => Err(Stop::Line(LineFault::BadValue(key.number()))),
        }
    }

    // Returns whether no `ticket` line precedes a ticket's key.
    #[tactic(auto, using(crate::proofs::LastLemmas::open_is))]
    fn is_misplaced(&self, key: ConfKey) -> bool
        ensures { result ≡ is_misplaced key self.now }
    {
        match key.row().scope {
            Scope::File => false,
            Scope::Ticket => self.tickets.len() == 0 && self.defaults.is_none(),
        }
    }

    /// Handles one line. The time is linear in the line's bytes.
    ///
    /// # Errors
    ///
    /// The fault of the line.
    pub fn line(&mut self, alloc: Global, line: &'a [u8]) -> Result<(), Stop>
        ensures { Answers result self.new (said_fault self.old (said line.now))
            self.old (said_added self.old (said line.now)) }
    {
        match read_line(line) {
            Said::Empty => Ok(()),
            Said::Broken => Err(Stop::Line(LineFault::Syntax)),
            Said::Unknown => Err(Stop::Line(LineFault::UnknownKey)),
            Said::Pair { key, setting } => {
                if self.is_misplaced(key) {
                    return Err(Stop::Line(LineFault::Misplaced));
                }
                self.add_value(alloc, key, setting)
            }
        }
    }
}
