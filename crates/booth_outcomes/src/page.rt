//! The texts about a whole program, and their print on standard output.
ghost use Rattle.std.specs.Prelude.{◌≡◌, ◌≤◌};
ghost use Rattle.booth_cli.specs.declared.program.Program.TheVariants.{BoothFollow};
ghost use Rattle.booth_host.specs.Past.{GrewSome};
ghost use Rattle.booth_outcomes.specs.Outcomes.{HasBlame};
ghost use Rattle.booth_outcomes.specs.Pages.{IsPageOutcome, IsPageTold, help_text, page_text};

use crate::error_line::ErrorLine;
use crate::outcome::Ended;
use crate::{Outcome, texts};
use booth_cli::{Page, Program};
use booth_host::{Failed, Host};

const BOOTHD: &str = "Usage: boothd COMMAND [OPTIONS]\n\n\
    Decides with the other members which site holds each ticket of a geo-cluster.\n\n\
    Commands:\n  \
    daemon  Runs the daemon of one member, in the foreground\n  \
    status  Prints whether a daemon runs on this machine\n  \
    sim     Runs a whole cluster in memory, through generated events\n  \
    audit   Prints which member held which ticket when, from the journals of members\n  \
    help    Prints this text\n\n\
    Options:\n  \
    -h, --help     Prints this text, or after a command its options\n  \
    -V, --version  Prints the version\n\n\
    See boothd(8) for more.\n";

const BOOTH: &str = "Usage: booth COMMAND [OPTIONS]\n\n\
    Asks a daemon of a geo-cluster about its tickets, and has sites acquire and release them.\n\n\
    Commands:\n  \
    list    Lists the tickets, with the holder of each\n  \
    show    Prints the state of one ticket\n  \
    peers   Lists the other members, with the messages from and to each\n  \
    status  Prints whether the daemon runs\n  \
    grant   Makes a site acquire a ticket\n  \
    revoke  Makes a site release a ticket\n  \
    move    Makes the holder release a ticket, and then another site acquire it\n  \
    help    Prints this text\n\n\
    Options:\n  \
    -h, --help     Prints this text, or after a command its options\n  \
    -V, --version  Prints the version\n\n\
    See booth(8) for more.\n";

const GEOSTORE: &str = "Usage: geostore COMMAND [OPTIONS]\n\n\
    Sets, prints and deletes attributes of tickets at one site.\n\n\
    Commands:\n  \
    set     Sets an attribute of a ticket\n  \
    get     Prints the value of an attribute\n  \
    delete  Deletes an attribute\n  \
    list    Lists the attributes of a ticket\n  \
    help    Prints this text\n\n\
    Options:\n  \
    -h, --help     Prints this text, or after a command its options\n  \
    -V, --version  Prints the version\n\n\
    See geostore(8) for more.\n";

fn help_text(program: Program) -> &'static str
    requires { program ≡ BoothFollow → ⊥ }
    ensures { result.now ≡ help_text program }
{
    match program {
        Program::Boothd => BOOTHD,
        Program::Booth => BOOTH,
        Program::Geostore => GEOSTORE,
        Program::BoothFollow => unreachable!(),
    }
}

// Prints the text of a page.
fn print<H: Host>(program: Program, page: Page, text: &[u8], host: &mut H) -> Ended
    requires { text.now ≡ page_text program page }
    ensures past { GrewSome (IsPageTold program page result.outcome result.said) (H.past host.old)
        (H.past host.new) }
    ensures outcome { IsPageOutcome page result.outcome }
    ensures blame { HasBlame result.outcome (H.faults host.old) (H.faults host.new) }
    ensures later { H.faults host.old ≤ H.faults host.new }
{
    match host.out(text) {
        Ok(()) => Ended {
            outcome: Outcome::Shown(page),
            said: ErrorLine::none(),
        },
        Err(Failed) => Ended {
            outcome: Outcome::PrintFault,
            said: texts::unprinted_text(),
        },
    }
}

/// Prints this text about a program on standard output, and returns how its run ends. The arguments of `booth-follow`
/// ask for no such text.
pub fn tell_page<H: Host>(program: Program, page: Page, host: &mut H) -> Ended
    requires { program ≡ BoothFollow → ⊥ }
    ensures past { GrewSome (IsPageTold program page result.outcome result.said) (H.past host.old)
        (H.past host.new) }
    ensures outcome { IsPageOutcome page result.outcome }
    ensures blame { HasBlame result.outcome (H.faults host.old) (H.faults host.new) }
    ensures later { H.faults host.old ≤ H.faults host.new }
{
    match page {
        Page::Help => print(program, page, help_text(program).as_bytes(), host),
        Page::Version => print(program, page, texts::version_text(program).bytes(), host),
    }
}
