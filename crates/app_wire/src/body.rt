//! How long the body of a request is.
ghost use Rattle.std.specs.Prelude.{◌≡◌, ℕ, Some, None, All, length, map, codes, position};
ghost use Rattle.std.specs.Prelude.{if◌then◌else◌};
ghost use Rattle.std.specs.List.{list_all, list_any};
ghost use Rattle.std.specs.Char.{is_ascii_digit};
ghost use Rattle.std.specs.Str.Parse.{digits_value};
ghost use Rattle.httparse.specs.Spans.{IsHeaderWithin, header_bytes, span_bytes};
ghost use Rattle.app_wire.specs.Bodies.{body_length, is_length, is_name, length_in};

use httparse::spans::HeaderSpan;

/// The most bytes of a body.
pub const BODY_ROOM: usize = 1_048_576;

/// The most digits of a length.
const MOST_DIGITS: usize = 19;

/// What the fields of a head say of its body.
#[derive(Clone, Copy)]
pub(crate) enum BodyLength {
    /// A transfer coding stands, and none is offered.
    NotOffered,
    /// There is more than one length, or one that isn't 1 to 19 digits.
    Bad,
    /// It has more bytes than a body may have.
    TooLong,
    /// It has so many bytes.
    Bytes(usize),
}

fn is_coding_name(name: &[u8]) -> bool
    ensures { result ≡ is_name (codes "transfer-encoding") name.now }
{
    name.eq_ignore_ascii_case(b"transfer-encoding")
}

fn is_length_name(name: &[u8]) -> bool
    ensures { result ≡ is_name (codes "content-length") name.now }
{
    name.eq_ignore_ascii_case(b"content-length")
}

fn any_coding(front: &[u8], headers: &[HeaderSpan]) -> bool
    requires { All (IsHeaderWithin (length front.now)) headers.now }
    ensures { result ≡ list_any (λ h. is_name (codes "transfer-encoding")
        (span_bytes front.now h.name)) headers.now }
{
    headers.iter().any(|h| is_coding_name(h.name.of(front)))
}

fn any_length(front: &[u8], headers: &[HeaderSpan]) -> bool
    requires { All (IsHeaderWithin (length front.now)) headers.now }
    ensures { result ≡ list_any (λ h. is_name (codes "content-length")
        (span_bytes front.now h.name)) headers.now }
{
    headers.iter().any(|h| is_length_name(h.name.of(front)))
}

fn first_length(front: &[u8], headers: &[HeaderSpan]) -> Option<usize>
    requires { All (IsHeaderWithin (length front.now)) headers.now }
    ensures { result ≡ position (λ h. is_name (codes "content-length")
        (span_bytes front.now h.name)) headers.now }
{
    headers
        .iter()
        .position(|h| is_length_name(h.name.of(front)))
}

fn all_digits(value: &[u8]) -> bool
    ensures { result ≡ list_all is_ascii_digit value.now }
{
    value.iter().all(|b| b.is_ascii_digit())
}

fn is_length(value: &[u8]) -> bool
    ensures { result ≡ is_length value.now }
{
    !value.is_empty() && value.len() <= MOST_DIGITS && all_digits(value)
}

/// The number that 1 to 19 digits write.
pub(crate) fn number_of(value: &[u8]) -> Option<usize>
    ensures { result ≡ (if is_length value.now then Some (digits_value 10 value.now) else None) }
{
    if !is_length(value) {
        return None;
    }
    match std::str::from_utf8(value) {
        Ok(digits) => digits.parse::<usize>().ok(),
        Err(_) => None,
    }
}

fn length_in(value: &[u8]) -> BodyLength
    ensures { result ≡ length_in value.now }
{
    match number_of(value) {
        None => BodyLength::Bad,
        Some(size) => {
            if size <= BODY_ROOM {
                BodyLength::Bytes(size)
            } else {
                BodyLength::TooLong
            }
        }
    }
}

/// What the fields of a head say of its body.
pub(crate) fn body_length(front: &[u8], headers: &[HeaderSpan]) -> BodyLength
    requires { All (IsHeaderWithin (length front.now)) headers.now }
    ensures { result ≡ body_length (map (header_bytes front.now) headers.now) }
{
    if any_coding(front, headers) {
        return BodyLength::NotOffered;
    }
    match first_length(front, headers) {
        None => BodyLength::Bytes(0),
        Some(at) => {
            if any_length(front, &headers[at + 1..]) {
                BodyLength::Bad
            } else {
                length_in(headers[at].value.of(front))
            }
        }
    }
}
