//! An argument of a command as `clap` has it.
ghost use Rattle.std.specs.Prelude.{◌≡◌, false, map, IfOk};
ghost use Rattle.clap.specs.Words.{app_of, rule_of};
ghost use Rattle.booth_cli.specs.Arguments.{rule_for, valued, words};
ghost use Rattle.booth_cli.specs.Commands.{flag, with_rules, word};

use clap::{Arg, ArgAction, Command};
use std::alloc::{AllocError, Global};

/// The most journals of one audit.
const MOST_JOURNALS: usize = 16;

/// The form of an argument.
#[derive(Clone, Copy)]
pub(crate) enum Form {
    /// By its place. It is required.
    Word,
    /// By its place, 1 to 16 times.
    Words,
    /// By a letter with a value.
    Valued(char),
    /// By a letter with a value. It is required.
    Needed(char),
    /// By a letter alone.
    Flag(char),
    /// By a letter alone, or by its name.
    NamedFlag(char),
}

/// An argument of a command, with its help.
#[derive(Clone, Copy)]
pub(crate) struct Argument<'a> {
    /// Its name in the program.
    pub id: &'a str,
    pub form: Form,
    /// The name of its value in the help.
    pub value: &'a str,
    pub help: &'a str,
}

// Returns an argument with a value.
fn valued<'a>(alloc: Global, argument: &Argument<'a>) -> Arg<'a>
    ensures rule { rule_of result ≡ valued argument.now.id.now }
    ensures local { result.global ≡ false }
{
    Arg::new(alloc, argument.id)
        .value_name(argument.value)
        .help(argument.help)
        .action(ArgAction::Set)
}

// Returns an argument without a value.
fn flag<'a>(alloc: Global, argument: &Argument<'a>, letter: char) -> Arg<'a>
    ensures rule { rule_of result ≡ flag argument.now.id.now letter }
    ensures local { result.global ≡ false }
{
    Arg::new(alloc, argument.id)
        .short(letter)
        .help(argument.help)
        .action(ArgAction::SetTrue)
}

// Returns an argument by its place, which is required.
fn word<'a>(alloc: Global, argument: &Argument<'a>) -> Arg<'a>
    ensures rule { rule_of result ≡ word argument.now.id.now }
    ensures local { result.global ≡ false }
{
    valued(alloc, argument).required(true)
}

// Returns arguments by their places, at least one.
fn words<'a>(alloc: Global, argument: &Argument<'a>) -> Arg<'a>
    ensures rule { rule_of result ≡ words argument.now.id.now }
    ensures local { result.global ≡ false }
{
    word(alloc, argument).num_args(1..=MOST_JOURNALS)
}

fn arg_of<'a>(alloc: Global, argument: &Argument<'a>) -> Arg<'a>
    ensures rule { rule_of result ≡ rule_for argument.now }
    ensures local { result.global ≡ false }
{
    match argument.form {
        Form::Word => word(alloc, argument),
        Form::Words => words(alloc, argument),
        Form::Valued(letter) => valued(alloc, argument).short(letter),
        Form::Needed(letter) => valued(alloc, argument).short(letter).required(true),
        Form::Flag(letter) => flag(alloc, argument, letter),
        Form::NamedFlag(letter) => flag(alloc, argument, letter).long(argument.id),
    }
}

/// Adds these arguments to a command.
pub(crate) fn with_arguments<'a>(
    alloc: Global,
    command: Command<'a>,
    arguments: &[Argument<'a>],
) -> Result<Command<'a>, AllocError>
    ensures { IfOk result (λ c. app_of c ≡ with_rules (app_of command.entry) (map rule_for arguments.now)) }
{
    let mut command = command;
    for argument in arguments {
        command = command.arg(arg_of(alloc, argument))?;
    }
    Ok(command)
}
