//! Bytes to requests and replies to bytes: conversations, framing, routes, and the moments of a
//! clock.
#![tactic(auto)]

mod body;
pub mod clock;
pub mod doors;
pub mod framer;
mod front;
pub mod head;
pub mod laws;
pub mod memory;
pub mod next;
mod parts;
pub mod reply;
pub mod route;
pub mod routes;
pub mod stream;
mod talk;

pub use clock::{Clock, ListClock, SystemClock};
pub use doors::Doors;
pub use framer::{Fed, Framer, Request};
pub use head::Method;
pub use memory::MemoryDoors;
pub use reply::{fixed_reply, reply_bytes};
pub use route::{Route, RouteEnd};
pub use routes::Routes;
pub use stream::StreamDoors;
