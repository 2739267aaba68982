//! The command line as `clap` parses it: the subcommands and the words that each requires.
ghost use Rattle.std.specs.Prelude.{◌≡◌, IfOk, [], false, map};
ghost use Rattle.clap.specs.Words.{FailsBy, app_of, fault_of, rule_of, subcommand_of, subcommand_rows_of};
ghost use Rattle.clap.specs.declared.builder.Command.TheViews.{out-Command as fields_of};
ghost use Rattle.docker_cmd.specs.Grammar.{docker_app, docker_shape, required_rule, shape_of};

use crate::named::TableWord;
use crate::tasks::Subcommand;
use clap::{Arg, ArgMatches, Command, Error};
use std::alloc::{AllocError, Global};

/// Returns a required argument with this id.
fn required_word<'a>(alloc: Global, id: &'a str) -> Arg<'a>
    ensures rule { rule_of result ≡ required_rule id.entry.now }
    ensures local { result.global ≡ false }
{
    Arg::new(alloc, id).required(true)
}

/// Returns the subcommand with its required arguments.
fn command_of<'a>(alloc: Global, subcommand: Subcommand) -> Result<Command<'a>, AllocError>
    ensures shape { IfOk result (λ c. app_of c
        ≡ record { top = shape_of subcommand; subs = [] }) }
    ensures local { IfOk result (λ c. (fields_of c).has_globals ≡ false) }
{
    let mut command = Command::new(alloc, subcommand.name());
    for id in subcommand.ids() {
        command = command.arg(required_word(alloc, id))?;
    }
    Ok(command)
}

/// Returns the program without its subcommands. A subcommand is required, and there is no `--help`,
/// `help` or `--version`.
fn top<'a>(alloc: Global) -> Command<'a>
    ensures { app_of result ≡ record { top = docker_shape; subs = [] } }
{
    Command::new(alloc, "docker")
        .no_binary_name(true)
        .disable_help_flag(true)
        .disable_help_subcommand(true)
        .disable_version_flag(true)
        .subcommand_required(true)
}

/// Returns the program with its subcommands.
fn docker<'a>(alloc: Global) -> Result<Command<'a>, AllocError>
    ensures { IfOk result (λ c. app_of c ≡ docker_app) }
{
    let mut docker = top(alloc);
    for subcommand in Subcommand::all() {
        docker = docker.subcommand(command_of(alloc, *subcommand)?)?;
    }
    Ok(docker)
}

/// Parses the words with `clap`.
pub(crate) fn matches<'a>(alloc: Global, words: &'a [&'a str]) -> Result<ArgMatches<'a>, Error>
    ensures subcommand { IfOk result (λ m.
        subcommand_rows_of m ≡ subcommand_of docker_app (map (λ w. w.now) words.entry.now)) }
    ensures kinds { FailsBy (fault_of docker_app (map (λ w. w.now) words.entry.now)) result }
{
    let docker = docker(alloc)?;
    docker.try_get_matches_from(words)
}
