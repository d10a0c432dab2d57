//! The command that the words are read by.
ghost use Rattle.std.specs.Prelude.{◌≡◌, codes, true, false};
ghost use Rattle.clap.specs.Words.{App, Shape, app_of, rule_of, with_rule, with_subcommand};
ghost use Rattle.command_lines.specs.inner.Parsing.{Builds, address_command, alone, drill_command, new_option, new_place, new_top, option_command, program, with_addresses, with_options};

use clap::builder::ValueParser;
use clap::{Arg, ArgAction, Command};
use std::alloc::{AllocError, Global};

// An argument with one value, which isn't empty.
fn valued<'a>(alloc: Global, name: &'a str) -> Arg<'a>
    ensures rule { rule_of result ≡ record (new_option name.entry.now) { long = None } }
    ensures own { result.global ≡ false }
{
    Arg::new(alloc, name)
        .action(ArgAction::Set)
        .value_parser(ValueParser::NonEmptyString)
}

fn option<'a>(alloc: Global, name: &'a str) -> Arg<'a>
    ensures rule { rule_of result ≡ new_option name.entry.now }
    ensures own { result.global ≡ false }
{
    valued(alloc, name).long(name)
}

// An argument that is a word without a name.
fn place<'a>(alloc: Global, name: &'a str) -> Arg<'a>
    ensures rule { rule_of result ≡ new_place name.entry.now }
    ensures own { result.global ≡ false }
{
    valued(alloc, name).required(true)
}

// A command so far, with one more option.
fn with_option<'a>(
    alloc: Global,
    command: Result<Command<'a>, AllocError>,
    name: &'a str,
) -> Result<Command<'a>, AllocError>
    ensures { (app : App) → Builds app command.entry → Builds (with_rule app (new_option name.entry.now)) result }
{
    match command {
        Ok(command) => command.arg(option(alloc, name)),
        Err(error) => Err(error),
    }
}

// A command so far, with one more word without a name.
fn with_place<'a>(
    alloc: Global,
    command: Result<Command<'a>, AllocError>,
    name: &'a str,
) -> Result<Command<'a>, AllocError>
    ensures { (app : App) → Builds app command.entry → Builds (with_rule app (new_place name.entry.now)) result }
{
    match command {
        Ok(command) => command.arg(place(alloc, name)),
        Err(error) => Err(error),
    }
}

// A command with one more subcommand.
fn with_added<'a>(
    command: Command<'a>,
    added: Result<Command<'a>, AllocError>,
) -> Result<Command<'a>, AllocError>
    ensures { (app : App) (shape : Shape) → shape.is_plain ≡ true → app_of command.entry ≡ app → Builds (alone shape) added.entry
        → Builds (with_subcommand app shape) result }
{
    match added {
        Ok(added) => command.subcommand(added),
        Err(error) => {
            drop(command);
            Err(error)
        }
    }
}

// A command so far, with one more subcommand.
fn with_command<'a>(
    command: Result<Command<'a>, AllocError>,
    added: Result<Command<'a>, AllocError>,
) -> Result<Command<'a>, AllocError>
    ensures { (app : App) (shape : Shape) → shape.is_plain ≡ true → Builds app command.entry → Builds (alone shape) added.entry
        → Builds (with_subcommand app shape) result }
{
    match command {
        Ok(command) => with_added(command, added),
        Err(error) => {
            drop(added);
            Err(error)
        }
    }
}

// A command with all the options.
fn optioned<'a>(alloc: Global, name: &'a str) -> Result<Command<'a>, AllocError>
    ensures { Builds (alone (option_command name.entry.now)) result }
{
    let command = Ok(Command::new(alloc, name));
    let command = with_option(alloc, command, "crd");
    let command = with_option(alloc, command, "rules");
    let command = with_option(alloc, command, "hub");
    let command = with_option(alloc, command, "converter");
    let command = with_option(alloc, command, "to");
    let command = with_option(alloc, command, "turns");
    let command = with_option(alloc, command, "listen");
    let command = with_option(alloc, command, "workers");
    with_option(alloc, command, "connections")
}

fn addressed<'a>(alloc: Global, name: &'a str) -> Result<Command<'a>, AllocError>
    ensures { Builds (alone (address_command name.entry.now)) result }
{
    with_place(alloc, Ok(Command::new(alloc, name)), "url")
}

fn drill<'a>(alloc: Global) -> Result<Command<'a>, AllocError>
    ensures { Builds (alone drill_command) result }
{
    let command = with_place(alloc, Ok(Command::new(alloc, "drill")), "start");
    with_place(alloc, command, "count")
}

fn add_options<'a>(
    alloc: Global,
    command: Result<Command<'a>, AllocError>,
) -> Result<Command<'a>, AllocError>
    ensures { (app : App) → Builds app command.entry → Builds (with_options app) result }
{
    let command = with_command(command, optioned(alloc, "pipe"));
    let command = with_command(command, optioned(alloc, "convert"));
    let command = with_command(command, optioned(alloc, "review"));
    with_command(command, optioned(alloc, "serve"))
}

fn add_addresses<'a>(
    alloc: Global,
    command: Result<Command<'a>, AllocError>,
) -> Result<Command<'a>, AllocError>
    ensures { (app : App) → Builds app command.entry → Builds (with_addresses app) result }
{
    let command = with_command(command, addressed(alloc, "migrate"));
    let command = with_command(command, addressed(alloc, "dump"));
    with_command(command, addressed(alloc, "load"))
}

// The command without its subcommands: it has no help or version words.
fn top<'a>(alloc: Global) -> Command<'a>
    ensures { app_of result ≡ alone new_top }
{
    Command::new(alloc, "kubeconv")
        .no_binary_name(true)
        .disable_help_flag(true)
        .disable_help_subcommand(true)
        .subcommand_required(true)
}

/// The whole command, with one level of subcommands.
pub(crate) fn program<'a>(alloc: Global) -> Result<Command<'a>, AllocError>
    ensures { Builds program result }
{
    let command = add_options(alloc, Ok(top(alloc)));
    with_command(add_addresses(alloc, command), drill(alloc))
}
