//! What a command may do of the system, and nothing else.
ghost use Rattle.std.specs.Prelude.{◌≡◌, IfErr, IfOk, option_map};
ghost use Rattle.sqlite.specs.Files.{IsOpened, file_state};
ghost use Rattle.sqlite.specs.Start.{FindsIn};
ghost use Rattle.sqlite.specs.State.{HasCleanDisk};
ghost use Rattle.sqlite.specs.WalFiles.{image_at};
ghost use Rattle.dip_judge_system.specs.Failures.{listening_text, progress_text};
ghost use Rattle.dip_judge_system.specs.FileFaults.{IsFindFault, IsOpenFault};
ghost use Rattle.dip_judge_runs.specs.MapFiles as said;
ghost use Rattle.dip_judge_runs.specs.MapFiles.{IsMapOf, IsNoMapOf};

use dip_check_papers::Progress;
use dip_judge_runs::{NoMap, read_map};
use dip_map::Map;
use dip_map_text::STANDARD;
use dip_store_schema::{StoreFault, open_fault};
use mio::net;
use sqlite::{Connection, FileFrom, FileStore, Start};
use std::alloc::Global;
use std::fs::OpenOptions;
use std::io::IsTerminal;
use std::net::{SocketAddr, TcpListener};
use std::os::unix::fs::OpenOptionsExt;
use std::path::Path;
use std::time::{Clock, Duration};
use std::{fmt, fs, io};

/// A store that lies in a file, of which `S` says what it holds at first.
pub type Stored<S> = Connection<FileStore<FileFrom<S>>>;

/// What a command may do of the system: take memory, read a map's file, open a store's file, listen on a port of 127.0.0.1 and tell
/// that it does, tell how far a check has come, and read the clock. It can print nothing else, and open and remove no other file.
#[derive(Drop)]
pub struct System<'a> {
    rt: &'a HostRuntime,
}

impl<'a> System<'a> {
    /// What a command may do of all that the system hands the program.
    pub fn new(rt: &'a HostRuntime) -> System<'a>
        ensures { result.rt ≡ rt.entry }
    {
        System { rt }
    }
}

impl System<'_> {
    /// What takes memory.
    pub fn alloc(&self) -> Global {
        self.rt.alloc()
    }

    /// The map that the file of this path says, and the file's text; the standard map, and no text, where there is no path.
    ///
    /// # Errors
    /// Those of `read_map`.
    pub fn read_map(&self, path: Option<&str>) -> Result<(Map, Option<String>), NoMap>
        ensures map { IfOk result
            (λ p. IsMapOf STANDARD.now (option_map (λ p. p.now) path.entry)
            (said.text_said STANDARD.now p.1) p.0) }
        ensures fault { IfErr result
            (IsNoMapOf STANDARD.now (option_map (λ p. p.now) path.entry)) }
    {
        read_map(self.rt, self.rt.alloc(), path)
    }

    /// Opens the store of a file, which is made, empty, where there is none.
    ///
    /// # Errors
    /// Those of `open_new`.
    fn open_file<S: Start>(&self, start: S, path: &str) -> Result<Stored<S>, StoreFault>
        ensures fault { IfErr result IsOpenFault }
        ensures opened { IfOk result (λ c. HasCleanDisk (file_state c) → IsOpened c) }
        ensures found { IfOk result
            (λ c. HasCleanDisk (file_state c) → FindsIn (image_at S.Start) (file_state c)) }
    {
        match Connection::open_from(self.rt, path, false, start) {
            Ok(conn) => Ok(conn),
            Err((error, _)) => Err(open_fault(error)),
        }
    }

    /// Whether the folder in which a file of this path would lie is there.
    fn has_folder(&self, path: &str) -> bool {
        match Path::new(path).parent() {
            Some(folder) => folder.as_os_str().is_empty() || folder.is_dir(self.rt),
            None => false,
        }
    }

    /// Whether no file has this name, and to open its store would make one. The database refuses `:memory:` and a URI itself.
    fn is_missing(&self, path: &str) -> bool {
        if path == ":memory:" || path.starts_with("file:") {
            return false;
        }
        match fs::symlink_metadata(self.rt, path) {
            Ok(_) => false,
            Err(error) => error.kind() == io::ErrorKind::NotFound && self.has_folder(path),
        }
    }

    /// Makes an empty file that nobody but its owner may read or write, where no file has this name. What is wrong with the name is told when
    /// the store is opened.
    fn make_private(&self, path: &str) {
        if self.is_missing(path) {
            let _ = OpenOptions::new()
                .write(true)
                .create_new(true)
                .mode(0o600)
                .open(self.rt, path);
        }
    }

    /// Opens the store of a file, which is made where there is none: empty, and for its owner alone. The log beside it gets its rights.
    ///
    /// # Errors
    /// Want of memory; or the disk, also for a file that isn't a database or that another program has open.
    pub fn open_new<S: Start>(&self, start: S, path: &str) -> Result<Stored<S>, StoreFault>
        ensures fault { IfErr result IsOpenFault }
        ensures opened { IfOk result (λ c. HasCleanDisk (file_state c) → IsOpened c) }
        ensures found { IfOk result
            (λ c. HasCleanDisk (file_state c) → FindsIn (image_at S.Start) (file_state c)) }
    {
        self.make_private(path);
        self.open_file(start, path)
    }

    /// Opens the store of a file that is there.
    ///
    /// # Errors
    /// Where there is no file, that it has no desk's tables, and none is made; else those of `open_new`.
    pub fn open_present<S: Start>(&self, start: S, path: &str) -> Result<Stored<S>, StoreFault>
        ensures fault { IfErr result IsFindFault }
        ensures opened { IfOk result (λ c. HasCleanDisk (file_state c) → IsOpened c) }
        ensures found { IfOk result
            (λ c. HasCleanDisk (file_state c) → FindsIn (image_at S.Start) (file_state c)) }
    {
        if self.is_missing(path) {
            return Err(StoreFault::OtherSchema);
        }
        self.open_file(start, path)
    }

    /// Listens on this port of 127.0.0.1, and says so on standard error; one that takes nothing is no reason not to listen. As many
    /// clients may wait for their turn as the system lets: 4,096 where nothing else is set.
    ///
    /// # Errors
    /// The system's, as where the port is taken.
    pub fn listen_on(&self, port: u16) -> io::Result<TcpListener> {
        let address = SocketAddr::from(([127, 0, 0, 1], port));
        let listener = TcpListener::from(net::TcpListener::bind(self.rt, address)?);
        listener.set_nonblocking(false)?;
        let _ = self.rt.eprint(Listening { port });
        Ok(listener)
    }
}

/// The system's clock.
impl Clock for System<'_> {
    fn monotonic(&self) -> io::Result<Duration> {
        self.rt.monotonic()
    }

    fn since_1970(&self) -> io::Result<Duration> {
        self.rt.since_1970()
    }
}

/// Each 10,000 papers of a check are told on standard error, where that is a terminal.
impl Progress for System<'_> {
    fn hear(&self, papers: u32) {
        if papers % 10_000 == 0 && self.rt.stderr().is_terminal() {
            let _ = self.rt.eprint(RightSoFar { papers });
        }
    }
}

/// The port of 127.0.0.1 that is listened on.
///
/// It is printed as `dip_judge: listens on 127.0.0.1:`, the port and LF.
#[derive(Clone, Copy, Drop)]
struct Listening {
    port: u16,
}

impl fmt::Display for Listening {
    ghost output = { λ listening. listening_text listening.port };

    fn fmt<W: fmt::Write>(&self, f: &mut fmt::Formatter<W>) -> fmt::Result {
        write!(f, "dip_judge: listens on 127.0.0.1:{}\n", self.port)
    }
}

/// How many papers a check has found right so far.
///
/// It is printed as `dip_judge: `, the number, ` papers right so far` and LF.
#[derive(Clone, Copy, Drop)]
struct RightSoFar {
    papers: u32,
}

impl fmt::Display for RightSoFar {
    ghost output = { λ right. progress_text right.papers };

    fn fmt<W: fmt::Write>(&self, f: &mut fmt::Formatter<W>) -> fmt::Result {
        write!(f, "dip_judge: {} papers right so far\n", self.papers)
    }
}
