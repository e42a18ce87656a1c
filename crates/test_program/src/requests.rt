//! Requests, as lines say them.

use std::alloc::{AllocError, Global};

/// The bytes of a request with a method, and behind it its path and perhaps a body; of `cut` the
/// head of one alone, and of `silent` none.
pub fn request_of(alloc: Global, method: &str, rest: &str) -> Result<Vec<u8>, AllocError> {
    if method == "silent" {
        return Ok(Vec::new(alloc));
    }
    let (path, body) = rest.split_once(' ').unwrap_or((rest, ""));
    // What is cut short has a byte less than it says.
    let (method, length) = match method {
        "cut" => ("PUT", 1),
        _ => (method, body.len()),
    };
    let request = format!(in alloc;
        "{method} {path} HTTP/1.1\r\nHost: localhost\r\nContent-Length: {length}\r\n\r\n{body}"
    )?;
    Vec::from_slice(alloc, request.as_bytes())
}
