//! What the bytes of rows and schemas tell of them.
ghost use Rattle.row_lines.specs.Laws.{LawfulSchemasHaveTypeBytes, LinesTell, PiecesTell};
ghost use Rattle.row_lines.specs.Laws.{SchemasTell};

/// A law, and no work: of the line of a row its cells are read, and each piece of it is the key of
/// a cell.
pub fn lines_tell()
    ensures cells { LinesTell }
    ensures pieces { PiecesTell }
{}

/// A law, and no work: of the body of a schema, as a lawful one, that schema is read.
pub fn schemas_tell()
    ensures told { SchemasTell }
    ensures lawful { LawfulSchemasHaveTypeBytes }
{}
