//! The head of a request.
ghost use Rattle.std.specs.Prelude.{◌≡◌, ◌==◌, position, ◌≤◌, ◌<◌, ℕ, length, map, take, IsTrue};
ghost use Rattle.std.specs.Prelude.{All};
ghost use Rattle.app_wire.specs.Head.{method_named, target_path, HeadReads};

use crate::body::{BodyLength, body_length};
use httparse::Status;
use httparse::spans::{EMPTY_HEADER_SPAN, parse_request};

/// The most fields of a head.
pub const FIELD_ROOM: usize = 64;

/// The method of a request. Names of methods are compared as they stand.
#[derive(Clone, Copy, Debug, PartialEq, Eq)]
pub enum Method {
    Get,
    Put,
    Post,
    Delete,
    Other,
}

/// What a front, which ends with its first blank line, is.
#[derive(Clone, Copy)]
pub(crate) enum Head<'a> {
    /// No request head of at most 64 fields.
    Bad,
    /// A head: its method, its path, and what its fields say of its body.
    Whole(Method, &'a [u8], BodyLength),
}

fn method_of(name: &[u8]) -> Method
    ensures { result ≡ method_named name.now }
{
    if name == b"GET".as_slice() {
        Method::Get
    } else if name == b"PUT".as_slice() {
        Method::Put
    } else if name == b"POST".as_slice() {
        Method::Post
    } else if name == b"DELETE".as_slice() {
        Method::Delete
    } else {
        Method::Other
    }
}

fn query_start(target: &[u8]) -> Option<usize>
    ensures { result ≡ position (λ b. b == 63) target.now }
{
    target.iter().position(|b| *b == b'?')
}

fn path_within(target: &[u8]) -> &[u8]
    ensures { result.now ≡ target_path target.now }
{
    match query_start(target) {
        Some(at) => &target[..at],
        None => target,
    }
}

/// Reads a front that ends with its first blank line.
pub(crate) fn read_head(front: &[u8]) -> Head<'_>
    ensures { HeadReads front.now result }
{
    let mut headers = [EMPTY_HEADER_SPAN; FIELD_ROOM];
    match parse_request(front, &mut headers) {
        Ok(Status::Complete(head)) if head.len == front.len() => Head::Whole(
            method_of(head.method.of(front)),
            path_within(head.path.of(front)),
            body_length(front, &headers[..head.headers]),
        ),
        _ => Head::Bad,
    }
}
