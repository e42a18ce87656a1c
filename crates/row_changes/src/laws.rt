//! What the changes of a table tell of its lines.
ghost use Rattle.row_changes.specs.Moves.{MadeTells, PartsTell};

/// A law, and no work: the line of a row is what was made of it, or what is kept of it.
pub fn made_tells()
    ensures { MadeTells }
{}

/// A law, and no work: the lines of a table are those that are kept and have not changed, and those
/// that were made.
pub fn parts_tell()
    ensures { PartsTell }
{}
