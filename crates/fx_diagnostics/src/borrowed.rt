//! The values and the pieces among parts.
ghost use Rattle.std.specs.Prelude.{◌≡◌, IfOk, map};
ghost use Rattle.fx_typing.specs.Details as told;
ghost use Rattle.fx_typing.specs.Parts as parts;
ghost use Rattle.fx_typing.specs.TypedView.{piece_view, typed};
ghost use Rattle.fx_resolve.specs.PartView.{judged_part};

use fx_base::Memory;
use fx_resolve::Part;
use fx_typing::{Piece, Typed};
use std::alloc::Global;

/// The values, where all parts are values, and else none.
pub fn values_or_none<'p>(alloc: Global, all: &'p [Part]) -> Result<Vec<&'p Typed>, Memory>
    ensures { IfOk result (λ vs. map (λ v. typed v.now) vs.items
        ≡ told.or_none (parts.values (map judged_part all.now))) }
{
    let mut found = Vec::new(alloc);
    for one in all {
        let Part::Piece(Piece::Value(_, value)) = one else {
            return Ok(Vec::new(alloc));
        };
        found.push(value)?;
    }
    Ok(found)
}

/// The values and the names of columns.
pub fn all_pieces<'p>(alloc: Global, all: &'p [Part]) -> Result<Vec<&'p Piece>, Memory>
    ensures { IfOk result (λ ps. map (λ p. piece_view p.now) ps.items
        ≡ told.all_pieces (map judged_part all.now)) }
{
    let mut found = Vec::new(alloc);
    for one in all {
        if let Part::Piece(one) = one {
            found.push(one)?;
        }
    }
    Ok(found)
}
