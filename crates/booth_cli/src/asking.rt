//! The request of a command line, or why it has none.
ghost use Rattle.std.specs.Prelude.{◌≡◌, true, Some, None, Err, is_some, map, string_bytes};
ghost use Rattle.booth_cli.specs.Commands.{verb_in};
ghost use Rattle.booth_cli.specs.Asking.{Asks, HasOrder, HasWords, IsAskedBy, IsAuditOf, IsDaemonOf, IsFollowOf};
ghost use Rattle.booth_cli.specs.Asking.{IsMoveOf, IsSimulationOf, client_of, style_of};

use crate::Word;
use crate::command::{Verb, verb_in};
use crate::given::given_words;
use crate::page::{Page, page_in};
use crate::program::Program;
use crate::reading::{Read, Unread, read_words};
use booth_base::{Address, AttrValue, Name, PathText};
use booth_following::Programs;
use booth_talk::{Order, Style};
use clap::Error;
use std::alloc::{AllocError, Global};

/// The arguments of a daemon.
#[derive(Drop)]
pub struct DaemonWords {
    /// The member that the daemon is.
    pub site: Address,
    /// How many turns it makes, or none if it runs until it is stopped.
    pub turns: Option<u64>,
    /// The file that it locks.
    pub lock: PathText,
    /// The directory of its records.
    pub records: PathText,
    /// The file of its configuration.
    pub conf: PathText,
}

/// The arguments of a simulation.
#[derive(Drop)]
pub struct SimulationWords {
    /// The file of the configuration, if the arguments name one.
    pub conf: Option<PathText>,
    /// How many events it has.
    pub events: u64,
    /// The seed of its draws.
    pub number: u64,
}

/// The arguments of an audit.
#[derive(Drop)]
pub struct AuditWords {
    /// The file of the configuration.
    pub conf: PathText,
    /// The files of the journals, in the order of the arguments.
    pub journals: Vec<PathText>,
}

/// The arguments of a client.
#[derive(Drop)]
pub struct ClientWords {
    /// The request.
    pub order: Order,
    /// The daemon that receives the request, if the arguments name one.
    pub site: Option<Address>,
    /// The file of the configuration.
    pub conf: PathText,
}

/// The arguments of a move.
#[derive(Drop)]
pub struct MoveWords {
    pub ticket: Name,
    /// The site that the ticket is moved to.
    pub target: Address,
    /// Whether the move waits for outcomes.
    pub wait: bool,
    /// Whether the move is made even if a follower of the ticket runs on this machine.
    pub force: bool,
    /// The daemon that is asked for the ticket, if the arguments name one.
    pub site: Option<Address>,
    /// The file of the configuration.
    pub conf: PathText,
}

/// The arguments of a service that follows its ticket.
#[derive(Drop)]
pub struct FollowWords {
    pub ticket: Name,
    /// This site, whose daemon is asked.
    pub site: Address,
    pub program: Programs,
    /// How long before the end of the lease the service is stopped, in milliseconds, if the arguments say so.
    pub margin: Option<u64>,
    /// How long before that end it is killed, in milliseconds, if the arguments say so.
    pub kill: Option<u64>,
    /// Whether the service is restarted if its lease has another term than at its start.
    pub restart: bool,
    /// The directory of the daemon's records, with the clock of the daemon's times.
    pub records: PathText,
    /// The file of the configuration.
    pub conf: PathText,
}

/// The request of a command line.
#[derive(Drop)]
pub enum Asked {
    Daemon(DaemonWords),
    /// Ask whether the daemon with this lock runs.
    Status(PathText),
    /// Simulate a whole cluster with generated events.
    Simulation(SimulationWords),
    /// Audit journals.
    Audit(AuditWords),
    /// Send a request to a daemon.
    Client(ClientWords),
    /// Move a ticket to another site.
    Move(MoveWords),
    /// Have a service follow its ticket.
    Follow(FollowWords),
}

/// Why a command line has no request.
#[derive(Drop)]
pub enum Refusal {
    /// There is no first argument, or it is not a command and asks for no text about the program.
    NoCommand,
    /// The first argument asks for this text about the program.
    About(Page),
    /// The command does not accept the others, or help was requested, or the memory ran out.
    Untaken(Error),
    /// This is the first argument that its reader refuses.
    Bad(Word),
}

// Returns the daemon for these options, one of which is the member's address.
fn daemon_of(read: Read) -> DaemonWords
    requires { is_some read.site ≡ true }
    ensures { IsDaemonOf read result }
{
    let Some(site) = read.site else {
        unreachable!()
    };
    DaemonWords {
        site,
        turns: read.turns,
        lock: read.lock,
        records: read.records,
        conf: read.conf,
    }
}

// Returns the simulation for these options.
fn simulation_of(read: Read) -> SimulationWords
    ensures { IsSimulationOf read result }
{
    SimulationWords {
        conf: read.names_conf.then_some(read.conf),
        events: read.events,
        number: read.number,
    }
}

// Returns the audit for these options and arguments.
fn audit_of(read: Read) -> AuditWords
    ensures { IsAuditOf read result }
{
    AuditWords {
        conf: read.conf,
        journals: read.journals,
    }
}

// Returns the client for these arguments.
fn client_of(order: Order, read: Read) -> ClientWords
    ensures { result ≡ client_of order read }
{
    ClientWords {
        order,
        site: read.site,
        conf: read.conf,
    }
}

// Returns the ticket of a command that requires one.
fn named_ticket(read: &Read) -> Name
    requires { is_some read.now.ticket ≡ true }
    ensures { Some result ≡ read.now.ticket }
{
    match &read.ticket {
        Some(name) => name.copy(),
        None => unreachable!(),
    }
}

// Returns the form of the output for one ticket.
fn style_of(json: bool) -> Style
    ensures { result ≡ style_of json }
{
    if json { Style::Json } else { Style::Line }
}

// Returns the request for one ticket.
fn show(read: &Read) -> Order
    requires { HasWords Verb.Show read.now }
    ensures { HasOrder Verb.Show read.now result }
{
    Order::Show(named_ticket(read), style_of(read.json))
}

// Returns the move for these arguments.
fn move_of(read: Read) -> MoveWords
    requires { HasWords Verb.Move read }
    ensures { IsMoveOf read result }
{
    let ticket = named_ticket(&read);
    let Some(target) = read.target else {
        unreachable!()
    };
    MoveWords {
        ticket,
        target,
        wait: read.options.wait,
        force: read.force,
        site: read.site,
        conf: read.conf,
    }
}

// Returns the program in arguments that require one.
fn said_program(program: Option<Programs>) -> Programs
    requires { is_some program ≡ true }
    ensures { Some result ≡ program }
{
    match program {
        Some(program) => program,
        None => unreachable!(),
    }
}

// Returns the service for these arguments.
fn follow_of(read: Read) -> FollowWords
    requires { HasWords Verb.Follow read }
    ensures { IsFollowOf read result }
{
    let ticket = named_ticket(&read);
    let Some(site) = read.site else {
        unreachable!()
    };
    FollowWords {
        ticket,
        site,
        program: said_program(read.program),
        margin: read.margin,
        kill: read.kill,
        restart: read.restart,
        records: read.records,
        conf: read.conf,
    }
}

// Returns the attribute of a command that requires one.
fn named_attribute(read: &Read) -> Name
    requires { is_some read.now.name ≡ true }
    ensures { Some result ≡ read.now.name }
{
    match &read.name {
        Some(name) => name.copy(),
        None => unreachable!(),
    }
}

// Returns the value of a command that requires one.
fn said_value(read: &Read) -> AttrValue
    requires { is_some read.now.value ≡ true }
    ensures { Some result ≡ read.now.value }
{
    match &read.value {
        Some(value) => value.copy(),
        None => unreachable!(),
    }
}

// Returns the request of a command about attributes.
fn set_attribute(read: &Read) -> Order
    requires { HasWords Verb.SetAttribute read.now }
    ensures { HasOrder Verb.SetAttribute read.now result }
{
    Order::SetAttribute {
        ticket: named_ticket(read),
        name: named_attribute(read),
        value: said_value(read),
    }
}

fn get_attribute(read: &Read) -> Order
    requires { HasWords Verb.GetAttribute read.now }
    ensures { HasOrder Verb.GetAttribute read.now result }
{
    Order::GetAttribute {
        ticket: named_ticket(read),
        name: named_attribute(read),
    }
}

fn delete_attribute(read: &Read) -> Order
    requires { HasWords Verb.DeleteAttribute read.now }
    ensures { HasOrder Verb.DeleteAttribute read.now result }
{
    Order::DeleteAttribute {
        ticket: named_ticket(read),
        name: named_attribute(read),
    }
}

// Returns the request of a command with these options.
fn asked_of(verb: Verb, read: Read) -> Asked
    requires { HasWords verb read }
    ensures { IsAskedBy verb read result }
{
    match verb {
        Verb::Daemon => Asked::Daemon(daemon_of(read)),
        Verb::Status => Asked::Status(read.lock),
        Verb::Simulate => Asked::Simulation(simulation_of(read)),
        Verb::Audit => Asked::Audit(audit_of(read)),
        Verb::List => Asked::Client(client_of(Order::List, read)),
        Verb::Show => Asked::Client(client_of(show(&read), read)),
        Verb::Peers => Asked::Client(client_of(Order::Peers, read)),
        Verb::DaemonStatus => Asked::Client(client_of(Order::Status, read)),
        Verb::Grant => {
            let ticket = named_ticket(&read);
            Asked::Client(client_of(Order::Grant(ticket, read.options), read))
        }
        Verb::Revoke => {
            let ticket = named_ticket(&read);
            Asked::Client(client_of(Order::Revoke(ticket, read.options), read))
        }
        Verb::Move => Asked::Move(move_of(read)),
        Verb::SetAttribute => Asked::Client(client_of(set_attribute(&read), read)),
        Verb::GetAttribute => Asked::Client(client_of(get_attribute(&read), read)),
        Verb::DeleteAttribute => Asked::Client(client_of(delete_attribute(&read), read)),
        Verb::ListAttributes => {
            let ticket = named_ticket(&read);
            Asked::Client(client_of(Order::ListAttributes(ticket), read))
        }
        Verb::Follow => Asked::Follow(follow_of(read)),
    }
}

// Returns why arguments without a command have no request.
fn unnamed(program: Program, words: &[String]) -> Refusal
    requires { verb_in program (map string_bytes words.now) ≡ None }
    ensures { Asks program (map string_bytes words.now) (Err result) }
{
    match page_in(program, words) {
        Some(page) => Refusal::About(page),
        None => Refusal::NoCommand,
    }
}

/// Returns the request of this program's arguments. Those of `booth-follow` begin with its own name.
///
/// # Errors
///
/// Why they have none.
pub fn ask(alloc: Global, program: Program, words: &[String]) -> Result<Asked, Refusal>
    ensures { Asks program (map string_bytes words.now) result }
{
    let Some(verb) = verb_in(program, words) else {
        return Err(unnamed(program, words));
    };
    let given = match given_words(alloc, verb, words) {
        Ok(given) => given,
        Err(error) => return Err(Refusal::Untaken(error)),
    };
    match read_words(alloc, &given) {
        Ok(read) => Ok(asked_of(verb, read)),
        Err(Unread::Bad(word)) => Err(Refusal::Bad(word)),
        Err(Unread::NoMemory) => Err(Refusal::Untaken(Error::from(AllocError))),
    }
}
