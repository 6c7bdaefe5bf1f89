//! The arguments of each command.
ghost use Rattle.std.specs.Prelude.{◌≡◌, map};
ghost use Rattle.booth_cli.specs.Arguments.{rule_for};
ghost use Rattle.booth_cli.specs.Commands.{rules_for};

use crate::argument::{Argument, Form};
use crate::command::Verb;

const CONF: Argument<'static> = Argument {
    id: "conf",
    form: Form::Valued('c'),
    value: "CONF",
    help: "Configuration: a path with a slash, or a name in /etc/booth [default: booth]",
};

/// The configuration of a simulation.
const SIMULATED: Argument<'static> = Argument {
    help: "Configuration: a path with a slash, or a name in /etc/booth [default: three members and a ticket]",
    ..CONF
};

/// The member that a daemon is.
const MEMBER: Argument<'static> = Argument {
    id: "site",
    form: Form::Needed('s'),
    value: "ADDRESS",
    help: "Address of the member that this daemon is",
};

/// The address of this site, whose daemon the follower asks.
const OWN_SITE: Argument<'static> = Argument {
    help: "Address of this site, whose daemon is asked",
    ..MEMBER
};

/// The daemon that receives a client's request.
const ASKED_SITE: Argument<'static> = Argument {
    id: "site",
    form: Form::Valued('s'),
    value: "ADDRESS",
    help: "Address of the daemon to ask [default: BOOTH_ADDRESS of the environment, or else the first site]",
};

const LOCK: Argument<'static> = Argument {
    id: "lock",
    form: Form::Valued('l'),
    value: "LOCKFILE",
    help: "File that is locked while a daemon runs [default: /var/run/booth.lock]",
};

const RECORDS: Argument<'static> = Argument {
    id: "records",
    form: Form::Valued('d'),
    value: "RECORDS",
    help: "Directory of the kept records [default: /var/lib/booth]",
};

const TURNS: Argument<'static> = Argument {
    id: "turns",
    form: Form::Valued('n'),
    value: "TURNS",
    help: "Ends after so many turns, 1 to 2^62 [default: runs on]",
};

const EVENTS: Argument<'static> = Argument {
    id: "events",
    form: Form::Valued('e'),
    value: "EVENTS",
    help: "How many events, 0 to 10000000 [default: 100000]",
};

const NUMBER: Argument<'static> = Argument {
    id: "number",
    form: Form::Valued('r'),
    value: "NUMBER",
    help: "The number that the events are drawn by [default: 1]",
};

const JOURNALS: Argument<'static> = Argument {
    id: "journal",
    form: Form::Words,
    value: "JOURNAL",
    help: "Journals of members, 1 to 16, all behind one another",
};

const TICKET: Argument<'static> = Argument {
    id: "ticket",
    form: Form::Word,
    value: "TICKET",
    help: "Name of the ticket",
};

const TARGET: Argument<'static> = Argument {
    id: "target",
    form: Form::Word,
    value: "ADDRESS",
    help: "Address of the site that is to have it",
};

const COMMIT: Argument<'static> = Argument {
    id: "commit",
    form: Form::Flag('C'),
    value: "",
    help: "Waits until the site has the ticket and its record is on the disk",
};

const IMMEDIATE: Argument<'static> = Argument {
    id: "immediate",
    form: Form::Flag('F'),
    value: "",
    help: "Grants a manual ticket although another site is known to have it",
};

const WAIT: Argument<'static> = Argument {
    id: "wait",
    form: Form::Flag('w'),
    value: "",
    help: "Waits until the site has the ticket, or cannot get it",
};

/// The wait of a revoke.
const REVOKE_WAIT: Argument<'static> = Argument {
    help: "Waits for the outcome; a daemon decides at once, so it changes nothing",
    ..WAIT
};

const FORCE: Argument<'static> = Argument {
    id: "force",
    form: Form::NamedFlag('f'),
    value: "",
    help: "Moves it although a follower of the ticket runs on this machine",
};

const JSON: Argument<'static> = Argument {
    id: "json",
    form: Form::NamedFlag('j'),
    value: "",
    help: "Prints a JSON object",
};

/// The ticket of an attribute.
const TICKET_OPTION: Argument<'static> = Argument {
    id: "ticket",
    form: Form::Needed('t'),
    value: "TICKET",
    help: "Name of the ticket whose attributes are meant",
};

const NAME: Argument<'static> = Argument {
    id: "name",
    form: Form::Word,
    value: "NAME",
    help: "Name of the attribute",
};

const VALUE: Argument<'static> = Argument {
    id: "value",
    form: Form::Word,
    value: "VALUE",
    help: "Its value, of up to 127 bytes",
};

const MARGIN: Argument<'static> = Argument {
    id: "margin",
    form: Form::Valued('m'),
    value: "SECONDS",
    help: "Stops the service so long before the lease ends [default: half of what is left at a renewal]",
};

const KILL: Argument<'static> = Argument {
    id: "kill",
    form: Form::Valued('k'),
    value: "SECONDS",
    help: "Kills the service, where it has not stopped, so long before that end [default: half of the margin]",
};

const RESTART: Argument<'static> = Argument {
    id: "restart-on-term",
    form: Form::NamedFlag('r'),
    value: "",
    help: "Restarts the service if its lease has another term than at its start",
};

const PROGRAM: Argument<'static> = Argument {
    id: "program",
    form: Form::Word,
    value: "PROGRAM",
    help: "Program with its arguments, in one word; it is run with start, stop or kill behind them",
};

/// Returns the arguments of a command, in the order of its help.
pub(crate) fn arguments<'a>(verb: Verb) -> &'a [Argument<'a>]
    ensures { map rule_for result.now ≡ rules_for verb }
{
    match verb {
        Verb::Daemon => &[CONF, MEMBER, LOCK, RECORDS, TURNS],
        Verb::Status => &[LOCK],
        Verb::Simulate => &[SIMULATED, EVENTS, NUMBER],
        Verb::Audit => &[CONF, JOURNALS],
        Verb::List => &[CONF, ASKED_SITE],
        Verb::Show => &[CONF, ASKED_SITE, TICKET, JSON],
        Verb::Peers => &[CONF, ASKED_SITE],
        Verb::DaemonStatus => &[CONF, ASKED_SITE],
        Verb::Grant => &[CONF, ASKED_SITE, TICKET, WAIT, COMMIT, IMMEDIATE],
        Verb::Revoke => &[CONF, ASKED_SITE, TICKET, REVOKE_WAIT],
        Verb::Move => &[CONF, ASKED_SITE, TICKET, TARGET, WAIT, FORCE],
        Verb::SetAttribute => &[CONF, ASKED_SITE, TICKET_OPTION, NAME, VALUE],
        Verb::GetAttribute => &[CONF, ASKED_SITE, TICKET_OPTION, NAME],
        Verb::DeleteAttribute => &[CONF, ASKED_SITE, TICKET_OPTION, NAME],
        Verb::ListAttributes => &[CONF, ASKED_SITE, TICKET_OPTION],
        Verb::Follow => &[
            CONF, OWN_SITE, RECORDS, MARGIN, KILL, TICKET, PROGRAM, RESTART,
        ],
    }
}
