//! The rules by their numbers and names.
ghost use Rattle.std.specs.Prelude.{◌≡◌};
ghost use Rattle.fx_core.specs.Rules.{rule_number, name_of};

/// A rule that an app can break, with its number from 1 on.
#[derive(Clone, Copy)]
pub enum Rule {
    /// A character or a word that begins no token.
    BadToken,
    /// Tokens that are no formula.
    Syntax,
    /// A formula with more levels than may be.
    TooDeep,
    UnknownName,
    NameTwice,
    WrongType,
    WrongCount,
    NoFunction,
    /// A function that acts, where only a value may stand.
    BehaviourInPure,
    /// Cells that need each other.
    Cycle,
    /// A variable that is given values of types that don't join.
    VariableTypes,
    UnknownColumn,
    /// More of something than may be.
    LimitPassed,
    /// A file that isn't of the form of an app.
    BadShape,
    NotAVariable,
    /// A form that isn't built yet.
    NotBuilt,
    /// Functions that call each other or themselves in a circle.
    Recursion,
}

impl Rule {
    /// The rule's number, 1 to 17.
    pub fn number(self) -> u8
        ensures { result ≡ rule_number self }
    {
        match self {
            Rule::BadToken => 1,
            Rule::Syntax => 2,
            Rule::TooDeep => 3,
            Rule::UnknownName => 4,
            Rule::NameTwice => 5,
            Rule::WrongType => 6,
            Rule::WrongCount => 7,
            Rule::NoFunction => 8,
            Rule::BehaviourInPure => 9,
            Rule::Cycle => 10,
            Rule::VariableTypes => 11,
            Rule::UnknownColumn => 12,
            Rule::LimitPassed => 13,
            Rule::BadShape => 14,
            Rule::NotAVariable => 15,
            Rule::NotBuilt => 16,
            Rule::Recursion => 17,
        }
    }

    /// The rule's name, as `BadToken`.
    pub fn name(self) -> &'static str
        ensures { result.now ≡ name_of self }
    {
        match self {
            Rule::BadToken => "BadToken",
            Rule::Syntax => "Syntax",
            Rule::TooDeep => "TooDeep",
            Rule::UnknownName => "UnknownName",
            Rule::NameTwice => "NameTwice",
            Rule::WrongType => "WrongType",
            Rule::WrongCount => "WrongCount",
            Rule::NoFunction => "NoFunction",
            Rule::BehaviourInPure => "BehaviourInPure",
            Rule::Cycle => "Cycle",
            Rule::VariableTypes => "VariableTypes",
            Rule::UnknownColumn => "UnknownColumn",
            Rule::LimitPassed => "LimitPassed",
            Rule::BadShape => "BadShape",
            Rule::NotAVariable => "NotAVariable",
            Rule::NotBuilt => "NotBuilt",
            Rule::Recursion => "Recursion",
        }
    }
}
