//! The one line of a program on standard error.
ghost use Rattle.std.specs.Prelude.{◌≤◌};
ghost use Rattle.booth_host.specs.Past.{GrewSome};
ghost use Rattle.booth_outcomes.specs.Texts.{IsText};

use crate::error_line::ErrorLine;
use booth_cli::Program;
use booth_host::Host;

/// Prints a program's line on standard error, if there is one.
pub fn tell<H: Host>(program: Program, line: &ErrorLine, host: &mut H)
    ensures past { GrewSome (IsText program line.now) (H.past host.old) (H.past host.new) }
    ensures later { H.faults host.old ≤ H.faults host.new }
{
    if !line.bytes().is_empty() {
        let _ = host.err(&line.spoken(program));
    }
}
