//! The bytes of a reply.
ghost use Rattle.std.specs.Prelude.{◌≡◌, ◌++◌, IfOk, IsTrue, length, string_bytes};
ghost use Rattle.view_text.specs.Statuses.{is_status};
ghost use Rattle.app_wire.specs.ReplyBytes.{is_fixed, refusal, reply, reply_head};

use fx_base::Memory;
use std::alloc::{AllocError, Global};
use view_text::reason;

// The reason is a parameter, since a call within the text would leave its proof open.
fn head_text(alloc: Global, status: u16, reason: &str, len: usize) -> Result<String, AllocError>
    ensures { IfOk result (λ s. string_bytes s ≡ reply_head status reason.now len) }
{
    format!(in alloc;
        "HTTP/1.1 {status} {reason}\r\nContent-Type: application/json\r\nContent-Length: {len}\r\nConnection: close\r\n\r\n"
    )
}

/// The whole reply of this status with this body.
#[tactic(auto, unfolding(crate::specs::ReplyBytes::reply))]
pub fn reply_bytes(alloc: Global, status: u16, body: &str) -> Result<Vec<u8>, Memory>
    requires { IsTrue (is_status status) }
    ensures { IfOk result (λ v. v.items ≡ reply status body.now) }
{
    let mut bytes = head_text(alloc, status, reason(status), body.len())?.into_bytes();
    bytes.extend_from_slice(body.as_bytes())?;
    Ok(bytes)
}

/// The whole reply of a refusal that takes no memory: 1 to 8, 25 or 26.
pub fn fixed_reply(code: u8) -> &'static [u8]
    requires { IsTrue (is_fixed code) }
    ensures { result.now ≡ refusal code }
{
    match code {
        1 =>
            b"HTTP/1.1 400 Bad Request\r\nContent-Type: application/json\r\nContent-Length: 53\r\nConnection: close\r\n\r\n{\"refused\":{\"code\":1,\"detail\":null,\"name\":\"BadHead\"}}",
        2 =>
            b"HTTP/1.1 431 Request Header Fields Too Large\r\nContent-Type: application/json\r\nContent-Length: 57\r\nConnection: close\r\n\r\n{\"refused\":{\"code\":2,\"detail\":null,\"name\":\"HeadTooLong\"}}",
        3 =>
            b"HTTP/1.1 400 Bad Request\r\nContent-Type: application/json\r\nContent-Length: 55\r\nConnection: close\r\n\r\n{\"refused\":{\"code\":3,\"detail\":null,\"name\":\"BadLength\"}}",
        4 =>
            b"HTTP/1.1 413 Content Too Large\r\nContent-Type: application/json\r\nContent-Length: 57\r\nConnection: close\r\n\r\n{\"refused\":{\"code\":4,\"detail\":null,\"name\":\"BodyTooLong\"}}",
        5 =>
            b"HTTP/1.1 501 Not Implemented\r\nContent-Type: application/json\r\nContent-Length: 56\r\nConnection: close\r\n\r\n{\"refused\":{\"code\":5,\"detail\":null,\"name\":\"NotOffered\"}}",
        6 =>
            b"HTTP/1.1 400 Bad Request\r\nContent-Type: application/json\r\nContent-Length: 54\r\nConnection: close\r\n\r\n{\"refused\":{\"code\":6,\"detail\":null,\"name\":\"CutShort\"}}",
        7 =>
            b"HTTP/1.1 404 Not Found\r\nContent-Type: application/json\r\nContent-Length: 53\r\nConnection: close\r\n\r\n{\"refused\":{\"code\":7,\"detail\":null,\"name\":\"NoRoute\"}}",
        8 =>
            b"HTTP/1.1 405 Method Not Allowed\r\nContent-Type: application/json\r\nContent-Length: 57\r\nConnection: close\r\n\r\n{\"refused\":{\"code\":8,\"detail\":null,\"name\":\"WrongMethod\"}}",
        25 =>
            b"HTTP/1.1 503 Service Unavailable\r\nContent-Type: application/json\r\nContent-Length: 58\r\nConnection: close\r\n\r\n{\"refused\":{\"code\":25,\"detail\":null,\"name\":\"KeeperFault\"}}",
        _ =>
            b"HTTP/1.1 507 Insufficient Storage\r\nContent-Type: application/json\r\nContent-Length: 59\r\nConnection: close\r\n\r\n{\"refused\":{\"code\":26,\"detail\":null,\"name\":\"WantOfMemory\"}}",
    }
}
