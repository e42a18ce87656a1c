//! A client over a connection.
ghost use Rattle.std.specs.Io.{ReadsAtMost, WritesAtMost};

use std::io::{self, ErrorKind, Read, Write};
use std::net::{Shutdown, TcpListener, TcpStream};
use std::rt::HostRuntime;
use std::time::{Duration, Instant};

/// How many seconds a client has to send the first byte of its request. Browsers open connections
/// that they may never use, and each holds up all others for so long.
const FIRST_PATIENCE: u64 = 1;

/// How many seconds a client has to send its whole request, and again to take the reply.
const PATIENCE: u64 = 10;

/// How many milliseconds a client has to close its side behind the reply.
const LAST_PATIENCE: u64 = 100;

/// How many reads take what a client sends behind its request: as much as the longest request has.
const LAST_READS: u32 = 65;

/// How many clients in a row may have gone before they were taken.
const MOST_GONE: u32 = 1_000;

/// A client, with the moments by which its request is read and its reply is written.
#[derive(Drop)]
pub struct Client {
    stream: TcpStream,
    /// By when more of the request has to come.
    next_by: Instant,
    /// By when the whole request has to be there.
    asked_by: Instant,
    /// None until a reply is begun.
    answered_by: Option<Instant>,
}

/// The moment so long from now.
fn moment_in(rt: &HostRuntime, duration: Duration) -> io::Result<Instant> {
    match Instant::now(rt)?.checked_add(duration) {
        Some(moment) => Ok(moment),
        None => Err(ErrorKind::TimedOut.into()),
    }
}

/// How long it is until a moment. It is an error where that has passed.
fn time_until(rt: &HostRuntime, moment: Instant) -> io::Result<Duration> {
    match moment.checked_duration_since(Instant::now(rt)?) {
        Some(left) if !left.is_zero() => Ok(left),
        _ => Err(ErrorKind::TimedOut.into()),
    }
}

/// Takes the next connection.
fn accept(rt: &HostRuntime, listener: &TcpListener) -> io::Result<Client> {
    let (stream, _) = listener.accept()?;
    Ok(Client {
        stream,
        next_by: moment_in(rt, Duration::from_secs(FIRST_PATIENCE))?,
        asked_by: moment_in(rt, Duration::from_secs(PATIENCE))?,
        answered_by: None,
    })
}

impl Client {
    /// Waits for the next client. One that has gone before it could be taken is passed over.
    pub fn next(rt: &HostRuntime, listener: &TcpListener) -> io::Result<Client> {
        for _ in 0..MOST_GONE {
            match accept(rt, listener) {
                Err(error) if error.kind() == ErrorKind::ConnectionAborted => {}
                taken => return taken,
            }
        }
        accept(rt, listener)
    }

    /// Reads some bytes, while there is time for the request.
    pub fn read(&mut self, rt: &HostRuntime, room: &mut [u8]) -> io::Result<usize>
        ensures { ReadsAtMost result room.new }
    {
        let left = time_until(rt, self.next_by)?;
        self.stream.set_read_timeout(Some(left))?;
        let count = self.stream.read(room)?;
        // It has begun its request.
        self.next_by = self.asked_by;
        Ok(count)
    }

    /// Writes some bytes, while there is time for the reply.
    pub fn write(&mut self, rt: &HostRuntime, piece: &[u8]) -> io::Result<usize>
        ensures { WritesAtMost result piece.now }
    {
        let by = match self.answered_by {
            Some(by) => by,
            None => moment_in(rt, Duration::from_secs(PATIENCE))?,
        };
        self.answered_by = Some(by);
        self.stream.set_write_timeout(Some(time_until(rt, by)?))?;
        self.stream.write(piece)
    }

    /// Closes the connection. What the client still sends is taken first, for a short while: a
    /// connection that is closed with bytes unread is reset, and the reply may be lost with it.
    pub fn leave(mut self, rt: &HostRuntime) {
        let Ok(by) = moment_in(rt, Duration::from_millis(LAST_PATIENCE)) else {
            return;
        };
        if self.stream.shutdown(Shutdown::Write).is_err() {
            return;
        }
        self.next_by = by;
        self.asked_by = by;
        let mut rest = [0u8; 16_384];
        for _ in 0..LAST_READS {
            match self.read(rt, &mut rest) {
                Ok(n) if n > 0 => {}
                _ => return,
            }
        }
    }
}
