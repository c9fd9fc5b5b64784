//! The command line: which words ask for what.
ghost use Rattle.std.specs.Prelude.{◌≡◌, [], IfOk, IfErr, IfNone, IfSome, map};
ghost use Rattle.clap.specs.Words.{fault_of, subcommand_of, subcommand_rows_of};
ghost use Rattle.dip_judge_words.specs.ArgsGiven.{AsksVersion, IsFit, IsGiven};
ghost use Rattle.dip_judge_words.specs.CommandLine.{judge_command};
ghost use Rattle.dip_judge_words.specs.Reading.{AnswersAt};
ghost use Rattle.dip_judge_words.specs.UsageFaults.{IsUsageFault};

use crate::args::Args;
use crate::commands::judge_command;
use crate::faults::UsageFault;
use crate::values::{check_of, explain_of, init_of, letters_of, report_of, serve_of};
use clap::ArgMatches;
use clap::error::ErrorKind;
use std::alloc::Global;

/// What clap makes of the words; nothing where they ask for the version.
fn matches_of<'a>(alloc: Global, words: &'a [&'a str]) -> Result<Option<ArgMatches<'a>>, UsageFault>
    ensures taken { IfOk result (λ o. IfSome o
        (λ _. fault_of judge_command (map (λ w. w.now) words.entry.now) ≡ [])) }
    ensures found { IfOk result (λ o. IfSome o (λ m. subcommand_rows_of m
        ≡ subcommand_of judge_command (map (λ w. w.now) words.entry.now))) }
    ensures version { IfOk result
        (λ o. IfNone o (AsksVersion (map (λ w. w.now) words.entry.now))) }
    ensures faults { IfErr result (IsUsageFault (map (λ w. w.now) words.entry.now)) }
{
    match judge_command(alloc)?.try_get_matches_from(words) {
        Ok(matches) => Ok(Some(matches)),
        Err(error) => match error.kind() {
            ErrorKind::DisplayVersion => Ok(None),
            _ => Err(UsageFault::from(error)),
        },
    }
}

/// What the command that was found asks for.
fn asked_of<'a>(matches: &ArgMatches<'a>) -> Option<Args<'a>>
    ensures { AnswersAt (subcommand_rows_of matches.now) result }
{
    let Some((name, found)) = matches.subcommand() else {
        return None;
    };
    if name == "init" {
        return init_of(found);
    }
    if name == "letters" {
        return letters_of(found);
    }
    if name == "serve" {
        return serve_of(found);
    }
    if name == "report" {
        return report_of(found);
    }
    if name == "check" {
        return Some(check_of(found));
    }
    if name == "explain" {
        return explain_of(found);
    }
    None
}

/// What the words ask for, the program's own name being the first of them.
///
/// # Errors
/// clap refuses the words, or help is asked for; a value isn't within its bounds; or memory ran out.
pub fn read_args<'a>(alloc: Global, words: &'a [&'a str]) -> Result<Args<'a>, UsageFault>
    // clap takes the words, and gives them this command and these values; or it finds that the
    // version is asked for.
    ensures given { IfOk result (IsGiven (map (λ w. w.now) words.entry.now)) }
    // The secret is one, and the numbers are within bounds.
    ensures checks { IfOk result IsFit }
    ensures faults { IfErr result (IsUsageFault (map (λ w. w.now) words.entry.now)) }
{
    let Some(matches) = matches_of(alloc, words)? else {
        return Ok(Args::Version);
    };
    let Some(args) = asked_of(&matches) else {
        return Err(UsageFault::Check);
    };
    Ok(args)
}
