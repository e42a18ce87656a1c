//! What a reader of tokens has before it, and what each token is to it.

/// What the tokens are to be.
#[derive(Clone, Copy)]
pub enum Whole {
    Formula,
    /// Formulas with names, a `;` between them.
    Named,
}

/// What is open around the place where the reader stands.
#[derive(Clone, Copy)]
pub enum Frame {
    /// `(` around a formula.
    Group,
    /// `(` around the arguments of a call.
    Call,
    /// `[`
    List,
    /// `{` around fields; it is open from a field's `:` on.
    Record,
    /// `{` in a weave.
    Island,
}

/// What may come next.
#[derive(Clone, Copy)]
pub enum State {
    /// `=` or an operand: nothing has been read.
    Start,
    Operand,
    /// The first argument, or the closing bracket.
    OperandOrClose,
    /// Behind a `;`: a further part, or what ends the chain.
    OperandOrEnd,
    /// Behind a name, which may be called.
    AfterName,
    /// Behind an `And` or `Or` that must be called.
    AfterCallee,
    /// Behind what may have fields.
    AfterAccess,
    /// Behind a `%`.
    AfterPercent,
    /// Behind an operand that is whole.
    AfterAlias,
    /// Behind a `.`: a name.
    FieldName,
    /// Behind `As`: a name.
    AliasName,
    /// Behind `[@`: a name.
    GlobalName,
    /// Behind the name of a global: `]`.
    GlobalClose,
    /// Behind the `{` of a record: a field's name or `}`.
    FirstLabel,
    /// A field's name.
    Label,
    /// Behind a field's name: `:`.
    Colon,
    /// A piece or an island of a weave, or its end.
    Strand,
    /// The name of a named formula, or the end.
    Entry,
    /// Behind that name: `=`.
    EntryEqual,
}

/// What a token is where an operand begins.
#[derive(Clone, Copy)]
pub enum Begin {
    Leaf,
    Name,
    /// `And` or `Or`
    Callee,
    Sign,
    /// `(`
    Group,
    /// `[`
    List,
    /// `[@`
    Global,
    /// `{`
    Record,
    /// `$"`
    Weave,
    Nothing,
}

/// What a token is behind an operand.
#[derive(Clone, Copy)]
pub enum Follow {
    /// `(`
    Call,
    Dot,
    Percent,
    Caret,
    As,
    /// An operator between two operands.
    Operator,
    Semicolon,
    Comma,
    CloseParen,
    CloseBracket,
    CloseBrace,
    Nothing,
}

/// What a token does.
#[derive(Clone, Copy)]
pub enum Move {
    Stay(State),
    /// Opens this.
    Push(Frame, State),
    /// Closes what is innermost.
    Pop(State),
    /// It cannot stand here.
    Stop,
}
