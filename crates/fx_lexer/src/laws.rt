//! Laws of the definitions.
ghost use Rattle.std.specs.Prelude.{◌≡◌, List, ℕ};
ghost use Rattle.fx_lexer.specs.declared.token.Token.{Token as Tok};
ghost use Rattle.fx_lexer.specs.declared.token.LexErr.{LexErr};
ghost use Rattle.fx_lexer.specs.Lexed.{Lexeme, HasLexemes, Lexed, IsBadAt};

/// A text has at most one list of tokens, and at most one list of tokens with texts.
pub fn one_list_of_tokens()
    ensures tokens { (cs : List ℕ) (ts us : List Tok) → Lexed cs ts → Lexed cs us → ts ≡ us }
    ensures lexemes { (cs : List ℕ) (ls ms : List Lexeme) → HasLexemes cs ls → HasLexemes cs ms
        → ls ≡ ms }
{}

/// A text has at most one first bad token, and only where it has no list of tokens.
pub fn one_bad_token()
    ensures one { (cs : List ℕ) (a b : LexErr) → IsBadAt cs a → IsBadAt cs b → a ≡ b }
    ensures not_both { (cs : List ℕ) (a : LexErr) (ts : List Tok) → IsBadAt cs a → Lexed cs ts → ⊥ }
{}
