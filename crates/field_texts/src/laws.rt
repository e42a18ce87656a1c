// The law of fields.
ghost use Rattle.field_texts.specs.Fields.{FieldsReadBack};

/// A law, and no work: the field of a scalar is read back in a column that it fits, but for the
/// empty text, whose field is that of blank.
// A statement is proved only where it is a clause of a function, so a law is a function with an
// empty body.
pub fn fields_read_back()
    ensures { FieldsReadBack }
{}
