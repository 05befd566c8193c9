// The command that reads the words.
ghost use Rattle.std.specs.Prelude.{◌≡◌, IfOk, false};
ghost use Rattle.clap.specs.Words.{app_of, rule_of};
ghost use Rattle.smsd_words.specs.Command.{KeepsItsOwn, bare_app, check_app, flag_rule, list_app, manage_app};
ghost use Rattle.smsd_words.specs.Command.{option_rule, run_app, serve_app, smsd, wanted_rule, word_rule};

use clap::{Arg, ArgAction, Command};
use std::alloc::{AllocError, Global};

/// The command of the lasting desk.
pub fn smsd_command<'a>(alloc: Global) -> Result<Command<'a>, AllocError>
    ensures { IfOk result (λ command. app_of command ≡ smsd) }
{
    let run = run_command(alloc)?;
    let list = list_command(alloc)?;
    let serve = serve_command(alloc)?;
    let check = check_command(alloc)?;
    let manage = manage_command(alloc)?;
    bare_command(alloc)
        .subcommand(run)?
        .subcommand(list)?
        .subcommand(serve)?
        .subcommand(check)?
        .subcommand(manage)
}

// The subcommand that answers a script.
fn run_command<'a>(alloc: Global) -> Result<Command<'a>, AllocError>
    ensures app { IfOk result (λ command. app_of command ≡ run_app) }
    ensures own { IfOk result (KeepsItsOwn) }
{
    Command::new(alloc, "run")
        .arg(word(alloc, "script"))?
        .arg(flag(alloc, "volumes"))?
        .arg(flag(alloc, "strict"))?
        .arg(option(alloc, "manage"))?
        .arg(option(alloc, "store"))
}

// The subcommand that lists.
fn list_command<'a>(alloc: Global) -> Result<Command<'a>, AllocError>
    ensures app { IfOk result (λ command. app_of command ≡ list_app) }
    ensures own { IfOk result (KeepsItsOwn) }
{
    Command::new(alloc, "list")
        .arg(wanted(alloc, "what"))?
        .arg(option(alloc, "mask"))?
        .arg(option(alloc, "group"))?
        .arg(option(alloc, "volume"))?
        .arg(option(alloc, "format"))?
        .arg(option(alloc, "store"))
}

// The subcommand that serves.
fn serve_command<'a>(alloc: Global) -> Result<Command<'a>, AllocError>
    ensures app { IfOk result (λ command. app_of command ≡ serve_app) }
    ensures own { IfOk result (KeepsItsOwn) }
{
    Command::new(alloc, "serve")
        .arg(option(alloc, "port"))?
        .arg(option(alloc, "connections"))?
        .arg(option(alloc, "idle"))?
        .arg(flag(alloc, "log"))?
        .arg(option(alloc, "store"))
}

// The subcommand that checks a deck.
fn check_command<'a>(alloc: Global) -> Result<Command<'a>, AllocError>
    ensures app { IfOk result (λ command. app_of command ≡ check_app) }
    ensures own { IfOk result (KeepsItsOwn) }
{
    Command::new(alloc, "check")
        .arg(wanted(alloc, "deck"))?
        .arg(option(alloc, "store"))
}

// The subcommand that manages space.
fn manage_command<'a>(alloc: Global) -> Result<Command<'a>, AllocError>
    ensures app { IfOk result (λ command. app_of command ≡ manage_app) }
    ensures own { IfOk result (KeepsItsOwn) }
{
    Command::new(alloc, "manage")
        .arg(wanted(alloc, "day"))?
        .arg(flag(alloc, "dry-run"))?
        .arg(option(alloc, "store"))
}

// The command without its subcommands.
fn bare_command<'a>(alloc: Global) -> Command<'a>
    ensures { app_of result ≡ bare_app }
{
    Command::new(alloc, "smsd")
        .version("0.1.0")
        .no_binary_name(true)
        .disable_help_subcommand(true)
        .subcommand_required(true)
}

// A word that may be missing.
fn word<'a>(alloc: Global, name: &'a str) -> Arg<'a>
    ensures rule { rule_of result ≡ word_rule name.entry.now }
    ensures local { result.global ≡ false }
{
    Arg::new(alloc, name)
}

// A word that is wanted.
fn wanted<'a>(alloc: Global, name: &'a str) -> Arg<'a>
    ensures rule { rule_of result ≡ wanted_rule name.entry.now }
    ensures local { result.global ≡ false }
{
    Arg::new(alloc, name).required(true)
}

// An option with a value.
fn option<'a>(alloc: Global, name: &'a str) -> Arg<'a>
    ensures rule { rule_of result ≡ option_rule name.entry.now }
    ensures local { result.global ≡ false }
{
    Arg::new(alloc, name).long(name)
}

// An option without one.
fn flag<'a>(alloc: Global, name: &'a str) -> Arg<'a>
    ensures rule { rule_of result ≡ flag_rule name.entry.now }
    ensures local { result.global ≡ false }
{
    Arg::new(alloc, name).long(name).action(ArgAction::SetTrue)
}
