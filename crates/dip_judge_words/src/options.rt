//! The options of the commands.
ghost use Rattle.std.specs.Prelude.{◌≡◌, codes, false};
ghost use Rattle.clap.specs.Words.{IsPlainArg, rule_of};
ghost use Rattle.dip_judge_words.specs.CommandLine.{option_rule, required_rule};

use clap::Arg;
use std::alloc::Global;

/// The option of this name, with one value, which a command may go without.
fn option_arg<'a>(alloc: Global, name: &'a str, value: &'a str, help: &'a str) -> Arg<'a>
    ensures rule { rule_of result ≡ option_rule name.now }
    ensures plain { IsPlainArg result }
    ensures local { result.global ≡ false }
{
    Arg::new(alloc, name)
        .long(name)
        .value_name(value)
        .help(help)
}

/// The option `--store FILE`, which a command may go without.
pub fn store_arg<'a>(alloc: Global) -> Arg<'a>
    ensures rule { rule_of result ≡ option_rule (codes "store") }
    ensures plain { IsPlainArg result }
    ensures local { result.global ≡ false }
{
    option_arg(alloc, "store", "FILE", "The file of the judge's tables")
}

/// The option `--store FILE` of a command that wants it.
pub fn required_store<'a>(alloc: Global) -> Arg<'a>
    ensures rule { rule_of result ≡ required_rule (codes "store") }
    ensures plain { IsPlainArg result }
    ensures local { result.global ≡ false }
{
    store_arg(alloc).required(true)
}

/// The option `--master SECRET`, which a command may go without.
pub fn master_arg<'a>(alloc: Global) -> Arg<'a>
    ensures rule { rule_of result ≡ option_rule (codes "master") }
    ensures plain { IsPlainArg result }
    ensures local { result.global ≡ false }
{
    option_arg(
        alloc,
        "master",
        "SECRET",
        "The master's secret: 8 to 64 printable ASCII characters, no space",
    )
}

/// The option `--master SECRET` of a command that wants it.
pub fn required_master<'a>(alloc: Global) -> Arg<'a>
    ensures rule { rule_of result ≡ required_rule (codes "master") }
    ensures plain { IsPlainArg result }
    ensures local { result.global ≡ false }
{
    master_arg(alloc).required(true)
}

/// The option `--port PORT`, which its command needs. clap takes any text; `serve_of` checks the
/// number.
pub fn port_arg<'a>(alloc: Global) -> Arg<'a>
    ensures rule { rule_of result ≡ required_rule (codes "port") }
    ensures plain { IsPlainArg result }
    ensures local { result.global ≡ false }
{
    option_arg(
        alloc,
        "port",
        "PORT",
        "The port to listen on at 127.0.0.1: 1 to 65535",
    )
    .required(true)
}

/// The option `--count NUMBER`, which its command needs. clap takes any text; `serve_of` checks the
/// number.
pub fn count_arg<'a>(alloc: Global) -> Arg<'a>
    ensures rule { rule_of result ≡ required_rule (codes "count") }
    ensures plain { IsPlainArg result }
    ensures local { result.global ≡ false }
{
    option_arg(
        alloc,
        "count",
        "NUMBER",
        "How many connections to serve: 1 to 999999",
    )
    .required(true)
}

/// The option `--game GAME`, which its command needs. Any text is taken: one that names no game is
/// found in no store.
pub fn game_arg<'a>(alloc: Global) -> Arg<'a>
    ensures rule { rule_of result ≡ required_rule (codes "game") }
    ensures plain { IsPlainArg result }
    ensures local { result.global ≡ false }
{
    option_arg(alloc, "game", "GAME", "The game whose papers are printed").required(true)
}

/// The option `--paper NUMBER`, which its command needs. clap takes any text; `explain_of` checks
/// the number.
pub fn paper_arg<'a>(alloc: Global) -> Arg<'a>
    ensures rule { rule_of result ≡ required_rule (codes "paper") }
    ensures plain { IsPlainArg result }
    ensures local { result.global ≡ false }
{
    option_arg(
        alloc,
        "paper",
        "NUMBER",
        "The number of the paper: 1 to 999999999",
    )
    .required(true)
}

/// The option `--map FILE`, which every command has and may go without: then the map is the
/// standard one.
pub fn map_arg<'a>(alloc: Global) -> Arg<'a>
    ensures rule { rule_of result ≡ option_rule (codes "map") }
    ensures plain { IsPlainArg result }
    ensures local { result.global ≡ false }
{
    option_arg(
        alloc,
        "map",
        "FILE",
        "The map's file, in TOML; without it, the standard map",
    )
}
