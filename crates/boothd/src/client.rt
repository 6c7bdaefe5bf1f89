//! The programs `booth` and `geostore`: their arguments, over the real host and links over TCP.

use booth_cli::{Asked, MoveWords, Program, ask};
use booth_links::{ClientHost, Transport};
use booth_programs::{
    HearingHost, Run, Unmade, chosen_transport, explain, has_follower, part, with_default_site,
    with_ticket,
};
use booth_real::RealHost;
use booth_tools::{Outcome, booth, geostore, passed};
use clap::error::ErrorKind;
use std::alloc::{AllocError, Global};
use std::io::Write;
use std::str;

/// The text after the help of a command.
const MORE_HELP: &[u8] = b"
Before or behind the command:
      --udp      Asks by datagrams alone
      --tcp      Asks over TCP, and by a datagram if the member takes no link
                 [default: BOOTH_TRANSPORT of the environment, or else by a datagram, and after a second over TCP]
";

/// The host of a client.
type Hearing = HearingHost<ClientHost<RealHost>>;

// Prints that a follower lives here, and which command moves its ticket with its service.
fn warn(rt: HostRuntime, asked: &MoveWords) -> Result<(), AllocError> {
    let ticket = str::from_utf8(asked.ticket.bytes()).unwrap_or("");
    let target = asked.target.print();
    let target = target.as_str();
    let line = format!(in rt.alloc();
        "booth: a follower of ticket {ticket} runs here: booth-switchover {ticket} {target} stops its service before \
        the move, and booth move -f does not\n"
    )?;
    let _ = rt.stderr().write_all(line.as_bytes());
    Ok(())
}

// Returns whether a follower of the ticket lives here and the move is not forced, and prints that.
fn is_refused(rt: HostRuntime, asked: &MoveWords) -> Result<bool, AllocError> {
    if asked.force || !has_follower(&rt, asked)? {
        return Ok(false);
    }
    warn(rt, asked)?;
    Ok(true)
}

// Returns whether the arguments of `booth` are those of such a move.
fn moves_beside(rt: HostRuntime, alloc: Global, words: &[String]) -> Result<bool, AllocError> {
    let mut refused = Ok(false);
    if let Ok(Asked::Move(asked)) = &ask(alloc, Program::Booth, words) {
        refused = is_refused(rt, asked);
    }
    refused
}

// Returns the host of this program.
fn client_host(
    rt: HostRuntime,
    alloc: Global,
    program: Program,
    transport: Transport,
) -> Result<Hearing, Unmade> {
    let mut host = RealHost::new(rt, alloc)?;
    host.speak_as(program.name());
    let host = ClientHost::new(rt, program.name(), transport, host);
    Ok(HearingHost::new(host))
}

/// The arguments of a client, and its transport.
#[derive(Drop)]
struct Client {
    words: Vec<String>,
    transport: Transport,
}

// Returns the client of these arguments and the environment.
fn client_of(
    rt: HostRuntime,
    alloc: Global,
    program: Program,
    words: &[String],
) -> Result<Client, Unmade> {
    let parted = part(alloc, words)?;
    let transport = chosen_transport(&rt, parted.transport)?;
    let words = match program {
        Program::Booth => with_ticket(rt, alloc, parted.words)?,
        Program::Geostore | Program::Boothd | Program::BoothFollow => parted.words,
    };
    Ok(Client {
        transport,
        words: with_default_site(rt, alloc, program, words)?,
    })
}

// Prints the known cause of a run's outcome, or the part of the help about the environment.
fn end(rt: HostRuntime, alloc: Global, run: Run<'_>, outcome: Outcome, host: &Hearing) -> u8 {
    match outcome {
        Outcome::NoReply | Outcome::NotRunning => host.inner().say_silence(),
        Outcome::Usage(Some(ErrorKind::DisplayHelp)) => {
            let _ = rt.stdout().write_all(MORE_HELP);
        }
        _ => {}
    }
    explain(rt, alloc, run, outcome, host.last());
    outcome.status()
}

/// Runs `booth` with these arguments, unless they move a ticket with a follower here. Returns its status.
pub(crate) fn run_booth(rt: HostRuntime, alloc: Global, words: &[String]) -> Result<u8, Unmade> {
    let client = client_of(rt, alloc, Program::Booth, words)?;
    let words = &client.words;
    if moves_beside(rt, alloc, passed(words))? {
        return Err(Unmade::Told);
    }
    let mut host = client_host(rt, alloc, Program::Booth, client.transport)?;
    let outcome = booth(alloc, words, &mut host);
    let run = Run {
        program: Program::Booth,
        words: passed(words),
    };
    Ok(end(rt, alloc, run, outcome, &host))
}

/// Runs `geostore` with these arguments, and returns its status.
pub(crate) fn run_geostore(rt: HostRuntime, alloc: Global, words: &[String]) -> Result<u8, Unmade> {
    let client = client_of(rt, alloc, Program::Geostore, words)?;
    let mut host = client_host(rt, alloc, Program::Geostore, client.transport)?;
    let outcome = geostore(alloc, &client.words, &mut host);
    let run = Run {
        program: Program::Geostore,
        words: &client.words,
    };
    Ok(end(rt, alloc, run, outcome, &host))
}
