//! Doors over loopback, with clients.
ghost use Rattle.std.specs.Prelude.{◌≡◌, true, None};

use app_wire::doors::Doors;
use fx_base::Failed;
use std::io::{self, Read, Write};
use std::marker::Model;
use std::net::{Ipv4Addr, Shutdown, TcpStream};
use std::rt::HostRuntime;
use std::time::Duration;
use tcp_doors::TcpDoors;

/// How long a client waits for its reply.
const PATIENCE: u64 = 10;

/// Doors over loopback that send their clients themselves, each with one request.
#[derive(Drop)]
pub struct Visits {
    rt: HostRuntime,
    doors: TcpDoors,
    port: u16,
    /// The requests still to come, the last one first.
    requests: Vec<Vec<u8>>,
    client: Option<TcpStream>,
    replies: Vec<Vec<u8>>,
}

impl Model for Visits {
    ghost use Rattle.std.specs.Prelude.{ℕ};

    ghost Value = { ℕ };

    ghost view = { λ v. v.doors };
}

impl Visits {
    /// Clients that send these requests.
    pub fn new(rt: HostRuntime, mut requests: Vec<Vec<u8>>) -> Visits {
        requests.reverse();
        Visits {
            rt,
            doors: TcpDoors::new(rt),
            port: 0,
            requests,
            client: None,
            replies: Vec::new(rt.alloc()),
        }
    }

    /// What the clients read.
    pub fn into_replies(self) -> Vec<Vec<u8>> {
        self.replies
    }

    /// Sends the next client, and says whether there is one.
    fn send_next(&mut self) -> bool
        ensures { self.new ≡ self.old }
    {
        let Some(request) = self.requests.pop() else {
            return false;
        };
        match send(&self.rt, self.port, &request) {
            Ok(client) => {
                self.client = Some(client);
                true
            }
            Err(_) => false,
        }
    }

    /// Keeps what the client reads up to the end.
    fn read_reply(&mut self)
        ensures { self.new ≡ self.old }
    {
        let Some(client) = self.client.take() else {
            return;
        };
        if let Ok(reply) = read_all(&self.rt, client) {
            let _kept = self.replies.push(reply);
        }
    }
}

/// Connects to a port on loopback, and sends a request and no more. One of no bytes isn't ended:
/// that client stays silent.
fn send(rt: &HostRuntime, port: u16, request: &[u8]) -> io::Result<TcpStream> {
    let mut stream = TcpStream::connect(rt, (Ipv4Addr::LOCALHOST, port))?;
    if request.is_empty() {
        return Ok(stream);
    }
    stream.write_all(request)?;
    stream.shutdown(Shutdown::Write)?;
    Ok(stream)
}

fn read_all(rt: &HostRuntime, mut stream: TcpStream) -> io::Result<Vec<u8>> {
    stream.set_read_timeout(Some(Duration::from_secs(PATIENCE)))?;
    let mut bytes = Vec::new(rt.alloc());
    stream.read_to_end(&mut bytes)?;
    Ok(bytes)
}

impl Doors for Visits {
    ghost told = { λ _. None };

    ghost single = { λ _. true };

    ghost faults = { λ v. v };

    fn listen(&mut self, port: u16) -> Result<(), Failed> {
        self.port = port;
        self.doors.listen(port)
    }

    fn next(&mut self) -> Result<bool, Failed> {
        if self.send_next() {
            self.doors.next()
        } else {
            Ok(false)
        }
    }

    fn read(&mut self, room: &mut [u8]) -> Result<usize, Failed> {
        self.doors.read(room)
    }

    fn write(&mut self, piece: &[u8]) -> Result<usize, Failed> {
        self.doors.write(piece)
    }

    fn hang_up(&mut self) {
        self.doors.hang_up();
        self.read_reply();
    }

    fn one(&self) -> bool {
        self.doors.one()
    }
}
