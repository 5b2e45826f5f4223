//! The command as clap is told it.

ghost use Rattle.std.specs.Prelude.{◌≡◌, IfOk, false};
ghost use Rattle.clap.specs.Words.{app_of, rule_of, with_rule};
ghost use Rattle.command_line.specs.Clap.{app, bare_app, numbers_app, values_app};
ghost use Rattle.command_line.specs.Clap.{file_rule, library_rule, option_rule};

use clap::{Arg, ArgAction, Command};
use std::alloc::{AllocError, Global};

// An option with a value.
fn option<'a>(alloc: Global, name: &'a str) -> Arg<'a>
    ensures rule { rule_of result ≡ option_rule name.entry.now }
    ensures local { result.global ≡ false }
{
    Arg::new(alloc, name).long(name).action(ArgAction::Set)
}

// The option for the library. It takes no value, and where it stands clap gives it this one.
fn library_option<'a>(alloc: Global) -> Arg<'a>
    ensures rule { rule_of result ≡ library_rule }
    ensures local { result.global ≡ false }
{
    Arg::new(alloc, "lib")
        .long("lib")
        .action(ArgAction::Set)
        .num_args(0)
        .default_missing_value("true")
}

// The name of the file.
fn file_name<'a>(alloc: Global) -> Arg<'a>
    ensures rule { rule_of result ≡ file_rule }
    ensures local { result.global ≡ false }
{
    Arg::new(alloc, "file").action(ArgAction::Set)
}

// The command before it has an option. Nothing asks for help.
fn bare<'a>(alloc: Global) -> Command<'a>
    ensures { app_of result ≡ bare_app }
{
    Command::new(alloc, "kanren")
        .no_binary_name(true)
        .disable_help_flag(true)
}

// A command with one option more that takes a value.
fn with_option<'a>(
    alloc: Global,
    command: Command<'a>,
    name: &'a str,
) -> Result<Command<'a>, AllocError>
    ensures { IfOk result (λ c.
        app_of c ≡ with_rule (app_of command.entry) (option_rule name.entry.now)) }
{
    command.arg(option(alloc, name))
}

// The command with the options that take numbers and are none of a load.
fn with_numbers<'a>(alloc: Global) -> Result<Command<'a>, AllocError>
    ensures { IfOk result (λ c. app_of c ≡ numbers_app) }
{
    let command = with_option(alloc, bare(alloc), "workers")?;
    let command = with_option(alloc, command, "fuel")?;
    let command = with_option(alloc, command, "ahead")?;
    let command = with_option(alloc, command, "round")?;
    Ok(command)
}

// The command with all options that take a value.
fn with_values<'a>(alloc: Global) -> Result<Command<'a>, AllocError>
    ensures { IfOk result (λ c. app_of c ≡ values_app) }
{
    let command = with_numbers(alloc)?;
    let command = with_option(alloc, command, "dialect")?;
    let command = with_option(alloc, command, "gen")?;
    Ok(command)
}

/// The command with its options and its file.
pub(crate) fn command<'a>(alloc: Global) -> Result<Command<'a>, AllocError>
    ensures { IfOk result (λ c. app_of c ≡ app) }
{
    let command = with_values(alloc)?;
    let command = command.arg(library_option(alloc))?;
    let command = command.arg(file_name(alloc))?;
    Ok(command)
}
