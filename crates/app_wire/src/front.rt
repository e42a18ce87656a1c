//! The front of the bytes, up to their first blank line.
ghost use Rattle.std.specs.Prelude.{◌≡◌, ◌↔◌, IsTrue, MatchOption, length, min};
ghost use Rattle.app_wire.specs.Framing.{EndsBlank, HasNoBlank, IsHeadEnd};

/// The most bytes of a head.
pub const HEAD_ROOM: usize = 8192;

/// Whether the bytes end with a blank line.
fn ends_blank(bytes: &[u8]) -> bool
    ensures { IsTrue result ↔ EndsBlank bytes.now }
{
    bytes.ends_with(b"\n\n") || bytes.ends_with(b"\n\r\n")
}

/// The length of the head that the bytes begin with.
pub(crate) fn head_end(bytes: &[u8]) -> Option<usize>
    ensures { MatchOption result (HasNoBlank bytes.now (min (length bytes.now) HEAD_ROOM))
        (IsHeadEnd bytes.now) }
{
    let room = bytes.len().min(HEAD_ROOM);
    for k in 0..room {
        if ends_blank(&bytes[..k + 1]) {
            return Some(k + 1);
        }
    }
    None
}
