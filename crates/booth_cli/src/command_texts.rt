//! The help of each command, without the help of its arguments.
ghost use Rattle.std.specs.Prelude.{◌≡◌};
ghost use Rattle.booth_cli.specs.Commands.{name_for};

use crate::command::Verb;

/// The help of a command.
#[derive(Clone, Copy)]
pub(crate) struct CommandTexts<'a> {
    pub name: &'a str,
    /// The program and the command, for the usage line.
    pub usage: &'a str,
    pub about: &'a str,
    /// The text after the options.
    pub more: &'a str,
}

const DAEMON: CommandTexts<'static> = CommandTexts {
    name: "daemon",
    usage: "boothd daemon",
    about: "Runs the daemon of one member, in the foreground.",
    more: "See boothd(8) for more.",
};

const STATUS: CommandTexts<'static> = CommandTexts {
    name: "status",
    usage: "boothd status",
    about: "Says whether a daemon runs on this machine: status 0 where it does, 7 where not.",
    more: "See boothd(8) for more.",
};

const SIMULATE: CommandTexts<'static> = CommandTexts {
    name: "sim",
    usage: "boothd sim",
    about: "Runs a whole cluster through generated events, and tells what became of its tickets.",
    more: "See boothd(8) for more.",
};

const AUDIT: CommandTexts<'static> = CommandTexts {
    name: "audit",
    usage: "boothd audit",
    about: "Says who held which ticket when, by the journals of members, or where they are not true.",
    more: "See boothd(8) for more.",
};

const LIST: CommandTexts<'static> = CommandTexts {
    name: "list",
    usage: "booth list",
    about: "Lists the tickets, the site that has each, and when its lease ends (UTC).",
    more: "Prints a line for each ticket of the daemon's configuration, with `none` where the daemon\n\
        knows of no site that has it. Status 0 where the daemon answered within 5 seconds, else 1.",
};

const SHOW: CommandTexts<'static> = CommandTexts {
    name: "show",
    usage: "booth show",
    about: "Shows how one ticket stands: its holder, the term of its lease, and the seconds that are left.",
    more: "Prints one line. The term is left out unless the daemon's own site holds the ticket, and the seconds\n\
        where nobody does, or for a manual ticket, whose lease has no end. Status 0 where the daemon answered\n\
        within 5 seconds, and has the ticket, else 1.\n\n\
        In place of the argument TICKET:\n  \
        -t <TICKET>  Name of the ticket",
};

const PEERS: CommandTexts<'static> = CommandTexts {
    name: "peers",
    usage: "booth peers",
    about: "Lists the other members, and what the daemon got from them and sent to them.",
    more: "Prints first how many datagrams the daemon dropped, by their fault; then a line for each other\n\
        member: when a message came from it last (UTC), how many came, how many were sent to it, and\n\
        how many could not be. Status 0 where the daemon answered within 5 seconds, else 1.",
};

const DAEMON_STATUS: CommandTexts<'static> = CommandTexts {
    name: "status",
    usage: "booth status",
    about: "Says whether the daemon runs.",
    more: "Prints that the daemon is running, status 0, or that it is not, status 7, where it gives no answer\n\
        within 5 seconds.",
};

const GRANT: CommandTexts<'static> = CommandTexts {
    name: "grant",
    usage: "booth grant",
    about: "Asks a site to acquire a ticket.",
    more: "Prints that the ticket is granted, or that it was asked for and the site acquires it now. Status 0\n\
        for both; 1 where the daemon refuses, and says why, or gives no answer within 5 seconds. With -w\n\
        or -C, once the daemon has begun, it is waited for as long as it takes.\n\n\
        In place of the argument TICKET:\n  \
        -t <TICKET>  Name of the ticket",
};

const REVOKE: CommandTexts<'static> = CommandTexts {
    name: "revoke",
    usage: "booth revoke",
    about: "Asks for a ticket to be given back.",
    more: "A daemon that names another member as the owner is believed once, and that member is asked. Prints\n\
        that the ticket is revoked. Status 0 where it is; 1 where the daemon refuses, and says why, or\n\
        gives no answer within 5 seconds.\n\n\
        In place of the argument TICKET:\n  \
        -t <TICKET>  Name of the ticket",
};

const MOVE: CommandTexts<'static> = CommandTexts {
    name: "move",
    usage: "booth move",
    about: "Has a ticket given back where it is, and then granted to another site.",
    more: "The site that is to have the ticket is asked first. Where it has it already, nothing is changed. The\n\
        grant is asked only once the ticket was given back, so no two sites have it at one moment. A site that\n\
        is busy is asked again, up to 10 times. Prints that the ticket is moved, or that its grant was asked\n\
        for. Status 0 for all three; 1 where one of the daemons refuses, and says why, or gives no answer\n\
        within 5 seconds, and where a follower of the ticket runs on this machine. Where the grant was refused\n\
        no site has the ticket.\n\n\
        In place of the argument TICKET:\n  \
        -t <TICKET>  Name of the ticket",
};

const SET_ATTRIBUTE: CommandTexts<'static> = CommandTexts {
    name: "set",
    usage: "geostore set",
    about: "Gives an attribute of a ticket a value, at one site.",
    more: "Prints nothing. A value or a name that begins with `-` stands behind `--`. Status 0 where it is set;\n\
        1 where the daemon refuses, and says why, or gives no answer within 5 seconds.",
};

const GET_ATTRIBUTE: CommandTexts<'static> = CommandTexts {
    name: "get",
    usage: "geostore get",
    about: "Shows the value of an attribute of a ticket, at one site.",
    more: "Prints the value on a line. Status 0 where the attribute is there; 1 where the daemon refuses, and\n\
        says why, or gives no answer within 5 seconds.",
};

const DELETE_ATTRIBUTE: CommandTexts<'static> = CommandTexts {
    name: "delete",
    usage: "geostore delete",
    about: "Takes an attribute of a ticket away, at one site.",
    more: "Prints nothing. Status 0 where the attribute was there; 1 where the daemon refuses, and says why,\n\
        or gives no answer within 5 seconds.",
};

const LIST_ATTRIBUTES: CommandTexts<'static> = CommandTexts {
    name: "list",
    usage: "geostore list",
    about: "Lists the attributes of a ticket, at one site.",
    more: "Prints a line for each attribute, its name and its value, in the order in which the names were first\n\
        set. Status 0 where the daemon answered within 5 seconds, else 1.",
};

const FOLLOW: CommandTexts<'static> = CommandTexts {
    name: "booth-follow",
    usage: "booth-follow",
    about: "Has a service run where this site holds a ticket, and nowhere else.",
    more: "The service is stopped before the lease ends, whatever became of the daemon. See booth-follow(8) for more.",
};

pub(crate) fn command_texts<'a>(verb: Verb) -> CommandTexts<'a>
    ensures { result.name.now ≡ name_for verb }
{
    match verb {
        Verb::Daemon => DAEMON,
        Verb::Status => STATUS,
        Verb::Simulate => SIMULATE,
        Verb::Audit => AUDIT,
        Verb::List => LIST,
        Verb::Show => SHOW,
        Verb::Peers => PEERS,
        Verb::DaemonStatus => DAEMON_STATUS,
        Verb::Grant => GRANT,
        Verb::Revoke => REVOKE,
        Verb::Move => MOVE,
        Verb::SetAttribute => SET_ATTRIBUTE,
        Verb::GetAttribute => GET_ATTRIBUTE,
        Verb::DeleteAttribute => DELETE_ATTRIBUTE,
        Verb::ListAttributes => LIST_ATTRIBUTES,
        Verb::Follow => FOLLOW,
    }
}
