//! The lines of the grammar, loosest first.

/// The lines whose parts, two or more, make one node.
#[derive(Clone, Copy)]
pub enum Join {
    /// `;`, without a last one.
    Chain,
    /// `||` or `Or`
    Or,
    /// `&&` or `And`
    And,
    /// `&`
    Cat,
}

/// What stands between parts.
#[derive(Clone, Copy)]
pub enum Separator {
    Between(Join),
    Comma,
}

/// The lines that group to the left.
#[derive(Clone, Copy)]
pub enum Left {
    /// `in exactin`
    Member,
    /// `= <> < <= > >=`
    Comp,
    /// `+ -`
    Sum,
    /// `* /`
    Prod,
}

/// A line of the grammar.
#[derive(Clone, Copy)]
pub enum Line {
    /// Formulas in turn, and maybe a last `;`.
    Chain,
    Several(Join),
    By(Left),
    /// Maybe with `As` and a name.
    Alias,
    /// `- ! Not` before it, any number of times.
    Prefix,
    /// Maybe with `^`, which groups to the right.
    Power,
    /// `%` behind it, any number of times.
    Percent,
    /// Fields behind it, any number of them.
    Access,
    Atom,
}

/// A token that is looked for by itself.
#[derive(Clone, Copy)]
pub enum Mark {
    OpenParen,
    CloseParen,
    CloseBracket,
    CloseBrace,
    CloseWeave,
    Comma,
    Colon,
    Semicolon,
    Dot,
    Percent,
    Caret,
    Equal,
    As,
}
