//! What each command asks for, by the values of its options.
ghost use Rattle.std.specs.Prelude.{◌≡◌, Some, codes, option_map};
ghost use Rattle.clap.specs.Words.{first_of, found_of, rows_of};
ghost use Rattle.dip_judge_words.specs.Reading.{Answers};

use crate::args::Args;
use crate::numbers::number_of;
use clap::ArgMatches;
use dip_letters_words::is_secret;

/// The first value that clap found for an option, if it found one.
fn value_of<'a>(found: &ArgMatches<'a>, option: &str) -> Option<&'a str>
    ensures { option_map (λ s. s.now) result ≡ first_of option.now (rows_of (found_of found.now)) }
{
    found.get_str(option)
}

/// A desk to be made in a store, for a master with a secret. `None` without both, or where the
/// secret isn't 8 to 64 printable ASCII characters without a space.
pub fn init_of<'a>(found: &ArgMatches<'a>) -> Option<Args<'a>>
    ensures { Answers (codes "init", rows_of (found_of found.now)) result }
{
    let map = value_of(found, "map");
    let Some(store) = value_of(found, "store") else {
        return None;
    };
    let Some(master) = value_of(found, "master") else {
        return None;
    };
    if !is_secret(master) {
        return None;
    }
    Some(Args::Init { store, master, map })
}

/// Letters to be taken over a store, or in memory for a master with a secret. `None` where store
/// and master are both named or both missing, or where the secret is none.
pub fn letters_of<'a>(found: &ArgMatches<'a>) -> Option<Args<'a>>
    ensures { Answers (codes "letters", rows_of (found_of found.now)) result }
{
    let map = value_of(found, "map");
    let master = value_of(found, "master");
    let Some(store) = value_of(found, "store") else {
        let Some(master) = master else {
            return None;
        };
        if !is_secret(master) {
            return None;
        }
        return Some(Args::Letters { master, map });
    };
    if master.is_some() {
        return None;
    }
    Some(Args::LettersOver { store, map })
}

/// Connections to be served over a store. `None` where an option is missing, the port isn't 1 to
/// 65535 or the count isn't 1 to 999999.
pub fn serve_of<'a>(found: &ArgMatches<'a>) -> Option<Args<'a>>
    ensures { Answers (codes "serve", rows_of (found_of found.now)) result }
{
    let map = value_of(found, "map");
    let Some(store) = value_of(found, "store") else {
        return None;
    };
    let Some(port) = value_of(found, "port") else {
        return None;
    };
    let Some(count) = value_of(found, "count") else {
        return None;
    };
    let Some(port) = number_of(port, 65535) else {
        return None;
    };
    let Some(count) = number_of(count, 999999) else {
        return None;
    };
    let port = port as u16;
    Some(Args::Serve {
        store,
        port,
        count,
        map,
    })
}

/// Papers to be checked by the map that is named, or else by the standard one. Nothing else is
/// asked for, so that there is always an answer.
pub fn check_of<'a>(found: &ArgMatches<'a>) -> Args<'a>
    ensures { Answers (codes "check", rows_of (found_of found.now)) (Some result) }
{
    Args::Check {
        map: value_of(found, "map"),
    }
}

/// The paper to be explained, whose number is 1 to 999999999; `None` where it is missing or
/// another.
pub fn explain_of<'a>(found: &ArgMatches<'a>) -> Option<Args<'a>>
    ensures { Answers (codes "explain", rows_of (found_of found.now)) result }
{
    let map = value_of(found, "map");
    let Some(paper) = value_of(found, "paper") else {
        return None;
    };
    let Some(paper) = number_of(paper, 999999999) else {
        return None;
    };
    Some(Args::Explain { paper, map })
}

/// The papers of a game to be printed from a store; `None` where store or game is missing.
pub fn report_of<'a>(found: &ArgMatches<'a>) -> Option<Args<'a>>
    ensures { Answers (codes "report", rows_of (found_of found.now)) result }
{
    let map = value_of(found, "map");
    let Some(store) = value_of(found, "store") else {
        return None;
    };
    let Some(game) = value_of(found, "game") else {
        return None;
    };
    Some(Args::Report { store, game, map })
}
