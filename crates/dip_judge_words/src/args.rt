//! What the program is asked to do.
ghost use Rattle.std.specs.Prelude.{◌≡◌, option_map};
ghost use Rattle.dip_judge_words.specs.ArgsGiven.{map_named};

/// What the program is asked to do. Each command goes by the map of the file that is named; where none is named by the standard map.
#[derive(Clone, Copy)]
pub enum Args<'a> {
    /// Make the tables in this file, with a master of this secret.
    Init {
        store: &'a str,
        master: &'a str,
        map: Option<&'a str>,
    },
    /// Take letters from standard input, with tables in memory whose master has this secret.
    Letters {
        master: &'a str,
        map: Option<&'a str>,
    },
    /// Take letters from standard input, with the tables of this file.
    LettersOver {
        store: &'a str,
        map: Option<&'a str>,
    },
    /// Serve so many connections on this port, with the tables of this file.
    Serve {
        store: &'a str,
        port: u16,
        count: u32,
        map: Option<&'a str>,
    },
    /// Print all papers of this game, from the tables of this file.
    Report {
        store: &'a str,
        game: &'a str,
        map: Option<&'a str>,
    },
    /// Check the papers of a game from standard input, with no tables.
    Check {
        map: Option<&'a str>,
    },
    /// Explain the paper of this number among the papers of a game from standard input, with no tables.
    Explain {
        paper: u32,
        map: Option<&'a str>,
    },
    /// Print what this program is: its version, its standard map, and by what it was proved.
    Version,
}

impl<'a> Args<'a> {
    /// The map's file, where one is named.
    pub fn map(&self) -> Option<&'a str>
        ensures { option_map (λ file. file.now) result ≡ map_named self.now }
    {
        match *self {
            Args::Init { map, .. } => map,
            Args::Letters { map, .. } => map,
            Args::LettersOver { map, .. } => map,
            Args::Serve { map, .. } => map,
            Args::Report { map, .. } => map,
            Args::Check { map } => map,
            Args::Explain { map, .. } => map,
            Args::Version => None,
        }
    }
}
