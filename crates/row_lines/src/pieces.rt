// Pieces of bytes: four bytes of length, and then so many bytes.
ghost use Rattle.std.specs.Prelude.{◌≡◌, ◌++◌, IfSome, OnOk};
ghost use Rattle.row_lines.specs.Bodies.{length_prefixed};
ghost use Rattle.row_lines.specs.FromBytes.{behind_piece, first_piece, piece_in};
ghost use Rattle.row_lines.specs.Laws.{IsShort};

use fx_base::Memory;

/// Adds these bytes as a piece.
pub fn push_piece(body: &mut Vec<u8>, bytes: &[u8]) -> Result<(), Memory>
    ensures ok { OnOk result (body.new.items ≡ body.old.items ++ length_prefixed bytes.now) }
    ensures short { OnOk result (IsShort bytes.now) }
{
    // No piece is so long that its length needs more than four bytes: memory would have run out
    // before.
    let Ok(len) = u32::try_from(bytes.len()) else {
        return Err(Memory);
    };
    body.extend_from_slice(&len.to_be_bytes())?;
    body.extend_from_slice(bytes)?;
    Ok(())
}

/// The bytes of the first piece, and those behind it.
pub fn split_piece(bytes: &[u8]) -> Option<(&[u8], &[u8])>
    ensures first { IfSome result (λ parts. parts.0.now ≡ first_piece bytes.now) }
    ensures behind { IfSome result (λ parts. parts.1.now ≡ behind_piece bytes.now) }
{
    if bytes.len() < 4 {
        return None;
    }
    let (head, rest) = bytes.split_at(4);
    let len = u32::from_be_bytes([head[0], head[1], head[2], head[3]]) as usize;
    if rest.len() < len {
        return None;
    }
    Some(rest.split_at(len))
}

/// The bytes of the piece at a place, counted from 0.
pub fn piece_at(body: &[u8], place: u16) -> Option<&[u8]>
    ensures { IfSome result (λ bytes. bytes.now ≡ piece_in place body.now) }
{
    let mut rest = body;
    for _passed in 0..place {
        let (_, behind) = split_piece(rest)?;
        rest = behind;
    }
    let (bytes, _) = split_piece(rest)?;
    Some(bytes)
}
