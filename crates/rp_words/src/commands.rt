//! The command line as clap's command.
ghost use Rattle.std.specs.Prelude.{◌≡◌, false, Some, IfOk};
ghost use Rattle.clap.specs.declared.builder.command.Command.TheViews.{out-Command as fields_of};
ghost use Rattle.clap.specs.Walk.{rule_of};
ghost use Rattle.clap.specs.Simple.{app_of, with_rule, with_subcommand};
ghost use Rattle.rp_words.specs.App.{option_rule, word_rule, run_app, race_app, gen_app, top_app, rp_app};

use clap::{Arg, Command};
use rp_base::NoMemory;
use std::alloc::Global;

/// An option of a long name, with a value.
fn option<'a>(alloc: Global, name: &'a str) -> Arg<'a>
    ensures rule { rule_of result ≡ option_rule name.entry.now }
    ensures local { result.global ≡ false }
{
    Arg::new(alloc, name).long(name)
}

/// A word that has to stand there.
fn word<'a>(alloc: Global, name: &'a str) -> Arg<'a>
    ensures rule { rule_of result ≡ word_rule name.entry.now }
    ensures local { result.global ≡ false }
{
    Arg::new(alloc, name).required(true)
}

/// A command that takes one more option.
fn with_option<'a>(
    alloc: Global,
    command: Command<'a>,
    name: &'a str,
) -> Result<Command<'a>, NoMemory>
    requires { (fields_of command).has_globals ≡ false }
    ensures app { IfOk result (λ c. app_of c ≡ with_rule (app_of command.entry) (option_rule name.entry.now)) }
    ensures local { IfOk result (λ c. (fields_of c).has_globals ≡ false) }
{
    let command = command.arg(option(alloc, name))?;
    Ok(command)
}

fn run<'a>(alloc: Global) -> Result<Command<'a>, NoMemory>
    ensures app { IfOk result (λ c. app_of c ≡ run_app) }
    ensures local { IfOk result (λ c. (fields_of c).has_globals ≡ false) }
{
    with_option(alloc, Command::new(alloc, "run"), "form")
}

fn race<'a>(alloc: Global) -> Result<Command<'a>, NoMemory>
    ensures app { IfOk result (λ c. app_of c ≡ race_app) }
    ensures local { IfOk result (λ c. (fields_of c).has_globals ≡ false) }
{
    let command = with_option(alloc, Command::new(alloc, "race"), "workers")?;
    let command = with_option(alloc, command, "loss")?;
    let command = with_option(alloc, command, "salt")?;
    let command = with_option(alloc, command, "quota")?;
    with_option(alloc, command, "form")
}

fn gen_command<'a>(alloc: Global) -> Result<Command<'a>, NoMemory>
    ensures app { IfOk result (λ c. app_of c ≡ gen_app) }
    ensures local { IfOk result (λ c. (fields_of c).has_globals ≡ false) }
{
    let command = Command::new(alloc, "gen")
        .arg(word(alloc, "number"))?
        .arg(word(alloc, "size"))?;
    Ok(command)
}

/// The program with no command yet. It shows no help.
fn top<'a>(alloc: Global) -> Command<'a>
    ensures app { app_of result ≡ top_app }
    ensures local { (fields_of result).has_globals ≡ false }
{
    Command::new(alloc, "rp")
        .no_binary_name(true)
        .disable_help_flag(true)
        .disable_help_subcommand(true)
        .subcommand_required(true)
}

/// The program with the command that runs a script.
fn with_run<'a>(alloc: Global) -> Result<Command<'a>, NoMemory>
    ensures { IfOk result (λ c. app_of c ≡ with_subcommand top_app run_app.top) }
{
    let run = run(alloc)?;
    let command = top(alloc).subcommand(run)?;
    Ok(command)
}

/// A program that takes the command of a race too.
fn with_race<'a>(alloc: Global, command: Command<'a>) -> Result<Command<'a>, NoMemory>
    ensures { IfOk result (λ c. app_of c ≡ with_subcommand (app_of command.entry) race_app.top) }
{
    let race = race(alloc)?;
    let command = command.subcommand(race)?;
    Ok(command)
}

/// A program that takes the command of the script maker too.
fn with_gen<'a>(alloc: Global, command: Command<'a>) -> Result<Command<'a>, NoMemory>
    ensures { IfOk result (λ c. app_of c ≡ with_subcommand (app_of command.entry) gen_app.top) }
{
    let maker = gen_command(alloc)?;
    let command = command.subcommand(maker)?;
    Ok(command)
}

/// The command line.
pub(crate) fn command<'a>(alloc: Global) -> Result<Command<'a>, NoMemory>
    ensures { IfOk result (λ c. app_of c ≡ rp_app) }
{
    let command = with_run(alloc)?;
    let command = with_race(alloc, command)?;
    with_gen(alloc, command)
}
