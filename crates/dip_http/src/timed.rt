//! What is read of a client and written to it within a time, however slowly it writes and reads.
ghost use Rattle.std.specs.Duration.{as_nanos};
ghost use Rattle.std.specs.Prelude.{◌≡◌, ◌≤◌, IfOk, IfSome, None, OnOk, Some, false, true};
ghost use Rattle.std.specs.Io.{ReadsAtMost, WritesAtMost};
ghost use Rattle.std.specs.Io.KnownBytes.{Keeps, ReadConsumes, WriteAppends};
ghost use Rattle.dip_http.specs.Timing.{answer_limit, dropping_limit, limit_after, silent_limit};

use std::io;
use std::io::{ErrorKind, Read, Write};
use std::net::TcpStream;
use std::time::{Clock, Duration, Instant};

/// How many seconds a client has for its first byte: a browser opens connections that it doesn't use.
pub const MOST_SILENT_SECONDS: u64 = 2;

/// How many seconds a client has for its whole request, from the first look at the clock, and then for taking its whole answer.
pub const MOST_SECONDS: u64 = 10;

/// How many milliseconds are spent on what a client still sends after its answer.
pub const MOST_DROPPING_MILLIS: u64 = 500;

/// A reader of a client's bytes that fails, by `TimedOut` or by `WouldBlock`, once the client's time
/// is up. Each read waits for the rest of that time at most, so that a client who writes one byte
/// now and then gains nothing.
#[derive(Drop)]
pub struct Timed<'a, C: Clock> {
    stream: &'a TcpStream,
    clock: &'a C,
    start: Instant,
    limit: Duration,
    is_silent: bool,
}

impl<'a, C: Clock> Timed<'a, C> {
    /// The client's time begins. It has `MOST_SILENT_SECONDS` until its first byte, and then
    /// `MOST_SECONDS` from the start.
    ///
    /// # Errors
    /// The clock's.
    pub fn new(stream: &'a TcpStream, clock: &'a C) -> io::Result<Timed<'a, C>>
        ensures limit { IfOk result (λ t. as_nanos t.limit ≡ silent_limit) }
        ensures silent { IfOk result (λ t. t.is_silent ≡ true) }
    {
        Ok(Timed {
            stream,
            clock,
            start: Instant::now(clock)?,
            limit: Duration::from_secs(MOST_SILENT_SECONDS),
            is_silent: true,
        })
    }

    /// The client has its answer: from now on it has `MOST_DROPPING_MILLIS`.
    ///
    /// # Errors
    /// The clock's.
    pub fn begin_dropping(&mut self) -> io::Result<()>
        ensures limit { OnOk result (as_nanos self.new.limit ≡ dropping_limit) }
        ensures silent { OnOk result (self.new.is_silent ≡ false) }
    {
        self.start = Instant::now(self.clock)?;
        self.limit = Duration::from_millis(MOST_DROPPING_MILLIS);
        self.is_silent = false;
        Ok(())
    }

    /// What is left of the limit by the clock, which is nothing once it has passed.
    fn time_left(&self) -> io::Result<Duration>
        ensures { IfOk result (λ left. as_nanos left ≤ as_nanos self.now.limit) }
    {
        let gone = self.start.elapsed(self.clock)?;
        Ok(self.limit.saturating_sub(gone))
    }
}

impl<C: Clock> Read for Timed<'_, C> {
    // The time runs on from its start, whatever comes.
    fn read(&mut self, buffer: &mut [u8]) -> io::Result<usize>
        ensures bound { ReadsAtMost result buffer.new }
        ensures bytes { ReadConsumes None None result buffer.new }
        ensures start { self.new.start ≡ self.old.start }
        ensures limit { as_nanos self.new.limit
            ≡ limit_after result self.old.is_silent (as_nanos self.old.limit) }
    {
        let left = self.time_left()?;
        if left.is_zero() {
            return Err(ErrorKind::TimedOut.into());
        }
        let mut stream = self.stream;
        stream.set_read_timeout(Some(left))?;
        let count = stream.read(buffer)?;
        if self.is_silent {
            self.is_silent = false;
            self.limit = Duration::from_secs(MOST_SECONDS);
        }
        Ok(count)
    }
}

/// A writer of a client's answer that fails, by `TimedOut` or by `WouldBlock`, once `MOST_SECONDS` have gone since its first write. Each
/// write waits for the rest of that time at most, so that a client who reads one byte now and then gains nothing.
#[derive(Drop)]
pub struct TimedAnswer<'a, C: Clock> {
    stream: &'a TcpStream,
    clock: &'a C,
    start: Option<Instant>,
}

impl<'a, C: Clock> TimedAnswer<'a, C> {
    /// Nothing is written yet, and no time runs.
    pub fn new(stream: &'a TcpStream, clock: &'a C) -> TimedAnswer<'a, C>
        ensures { result.start ≡ None }
    {
        TimedAnswer {
            stream,
            clock,
            start: None,
        }
    }

    /// What is left of the answer's time, which begins with the first call; nothing once it has passed.
    fn time_left(&mut self) -> io::Result<Duration>
        ensures start { IfSome self.old.start (λ begun. self.new.start ≡ Some begun) }
        ensures left { IfOk result (λ left. as_nanos left ≤ answer_limit) }
    {
        let start = match self.start {
            Some(start) => start,
            None => {
                let now = Instant::now(self.clock)?;
                self.start = Some(now);
                now
            }
        };
        let gone = start.elapsed(self.clock)?;
        Ok(Duration::from_secs(MOST_SECONDS).saturating_sub(gone))
    }
}

impl<C: Clock> Write for TimedAnswer<'_, C> {
    // The time runs on from its start, whatever is taken.
    fn write(&mut self, buffer: &[u8]) -> io::Result<usize>
        ensures bound { WritesAtMost result buffer.now }
        ensures bytes { WriteAppends None None result buffer.now }
        ensures start { IfSome self.old.start (λ begun. self.new.start ≡ Some begun) }
    {
        let left = self.time_left()?;
        if left.is_zero() {
            return Err(ErrorKind::TimedOut.into());
        }
        let mut stream = self.stream;
        stream.set_write_timeout(Some(left))?;
        stream.write(buffer)
    }

    // A socket keeps nothing back.
    fn flush(&mut self) -> io::Result<()>
        ensures bytes { Keeps None None }
        ensures start { self.new.start ≡ self.old.start }
    {
        Ok(())
    }
}
