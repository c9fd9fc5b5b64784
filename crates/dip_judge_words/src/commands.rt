//! The commands of the program.
ghost use Rattle.std.specs.Prelude.{◌≡◌, false, IfOk};
ghost use Rattle.clap.specs.Words.{app_of, new_app, rule_of, with_rule};
ghost use Rattle.clap.specs.declared.builder.command.Command.TheViews.{out-Command as fields_of};
ghost use Rattle.dip_judge_words.specs.CommandLine.{check_command, desk_command, explain_command, init_command, judge_command, letters_command, listening_command, mail_command, report_command, serve_command};

use crate::options::{
    count_arg, game_arg, map_arg, master_arg, paper_arg, port_arg, required_master, required_store,
    store_arg,
};
use crate::version::VERSION;
use clap::{Arg, Command};
use std::alloc::{AllocError, Global};

/// A command of this name with these two options.
fn command_of<'a>(
    alloc: Global,
    name: &'a str,
    first: Arg<'a>,
    second: Arg<'a>,
) -> Result<Command<'a>, AllocError>
    requires local { (first.global ≡ false) × (second.global ≡ false) }
    ensures app { IfOk result (λ c. app_of c
        ≡ with_rule (with_rule (new_app name.now) (rule_of first.entry)) (rule_of second.entry)) }
    ensures local { IfOk result (λ c. (fields_of c).has_globals ≡ false) }
{
    Command::new(alloc, name).arg(first)?.arg(second)
}

/// `init --store F --master S [--map M]`, as in `CommandLine.antt`, with its help.
fn init_command<'a>(alloc: Global) -> Result<Command<'a>, AllocError>
    ensures app { IfOk result (λ c. app_of c ≡ init_command) }
    ensures local { IfOk result (λ c. (fields_of c).has_globals ≡ false) }
{
    let command = command_of(alloc, "init", required_store(alloc), required_master(alloc))?;
    let command = command.arg(map_arg(alloc))?;
    Ok(command.about("Makes the judge's tables in a file"))
}

/// `letters [--store F] [--master S] [--map M]`: clap takes it with both of the first two and with
/// neither, and `letters_of` wants exactly one.
fn letters_options<'a>(alloc: Global) -> Result<Command<'a>, AllocError>
    ensures app { IfOk result (λ c. app_of c ≡ letters_command) }
    ensures local { IfOk result (λ c. (fields_of c).has_globals ≡ false) }
{
    command_of(alloc, "letters", store_arg(alloc), master_arg(alloc))?.arg(map_arg(alloc))
}

/// `letters` with its help, whose usage says that one of store and master is needed.
fn letters_command<'a>(alloc: Global) -> Result<Command<'a>, AllocError>
    ensures app { IfOk result (λ c. app_of c ≡ letters_command) }
    ensures local { IfOk result (λ c. (fields_of c).has_globals ≡ false) }
{
    let command = letters_options(alloc)?.override_usage(
        "dip_judge letters [OPTIONS] <--store <FILE>|--master <SECRET>>",
    );
    Ok(command.about(
        "Answers the letters on standard input, with the tables of a file or, by --master, in memory",
    ))
}

/// `serve --store F --port P --count N [--map M]`, with its help.
fn serve_command<'a>(alloc: Global) -> Result<Command<'a>, AllocError>
    ensures app { IfOk result (λ c. app_of c ≡ serve_command) }
    ensures local { IfOk result (λ c. (fields_of c).has_globals ≡ false) }
{
    let listening = listening_command(alloc)?;
    let command = listening.arg(count_arg(alloc))?.arg(map_arg(alloc))?;
    Ok(command.about("Serves HTTP connections on 127.0.0.1, one after the other"))
}

/// The beginning of `serve`: its store and its port, both required.
fn listening_command<'a>(alloc: Global) -> Result<Command<'a>, AllocError>
    ensures app { IfOk result (λ c. app_of c ≡ listening_command) }
    ensures local { IfOk result (λ c. (fields_of c).has_globals ≡ false) }
{
    command_of(alloc, "serve", required_store(alloc), port_arg(alloc))
}

/// `report --store F --game G [--map M]`, with its help.
fn report_command<'a>(alloc: Global) -> Result<Command<'a>, AllocError>
    ensures app { IfOk result (λ c. app_of c ≡ report_command) }
    ensures local { IfOk result (λ c. (fields_of c).has_globals ≡ false) }
{
    let command = command_of(alloc, "report", required_store(alloc), game_arg(alloc))?;
    let command = command.arg(map_arg(alloc))?;
    Ok(command.about("Prints all papers of a game, in order"))
}

/// `check [--map M]`, with its help. It opens no store.
fn check_command<'a>(alloc: Global) -> Result<Command<'a>, AllocError>
    ensures app { IfOk result (λ c. app_of c ≡ check_command) }
    ensures local { IfOk result (λ c. (fields_of c).has_globals ≡ false) }
{
    let command = Command::new(alloc, "check").arg(map_arg(alloc))?;
    Ok(command.about("Checks the papers of a game on standard input, with no tables"))
}

/// `explain --paper N [--map M]`, with its help. It opens no store.
fn explain_command<'a>(alloc: Global) -> Result<Command<'a>, AllocError>
    ensures app { IfOk result (λ c. app_of c ≡ explain_command) }
    ensures local { IfOk result (λ c. (fields_of c).has_globals ≡ false) }
{
    let command = command_of(alloc, "explain", paper_arg(alloc), map_arg(alloc))?;
    Ok(command.about("Says why a phase came out as it did, by the papers on standard input"))
}

/// The program's command line, as far as the commands over letters.
fn mail_command<'a>(alloc: Global) -> Result<Command<'a>, AllocError>
    ensures { IfOk result (λ c. app_of c ≡ mail_command) }
{
    let init = init_command(alloc)?;
    let letters = letters_command(alloc)?;
    Command::new(alloc, "dip_judge")
        .version(VERSION)
        .subcommand_required(true)
        .subcommand(init)?
        .subcommand(letters)
}

/// The program's command line, as far as the commands over a desk.
fn desk_command<'a>(alloc: Global) -> Result<Command<'a>, AllocError>
    ensures { IfOk result (λ c. app_of c ≡ desk_command) }
{
    let serve = serve_command(alloc)?;
    let report = report_command(alloc)?;
    mail_command(alloc)?.subcommand(serve)?.subcommand(report)
}

/// The program's command line.
pub fn judge_command<'a>(alloc: Global) -> Result<Command<'a>, AllocError>
    ensures { IfOk result (λ c. app_of c ≡ judge_command) }
{
    let check = check_command(alloc)?;
    let explain = explain_command(alloc)?;
    desk_command(alloc)?.subcommand(check)?.subcommand(explain)
}
