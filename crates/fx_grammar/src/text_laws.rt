//! Laws of the meanings of tokens, each proved once for all texts.
ghost use Rattle.std.specs.Prelude.{◌≡◌, ℕ, List};
ghost use Rattle.fx_core.specs.Tree.{Tree};
ghost use Rattle.fx_lexer.specs.Lexed.{Lexeme};
ghost use Rattle.fx_grammar.specs.declared.item.Item.{Item};
ghost use Rattle.fx_grammar.specs.Means.{AllMean};
ghost use Rattle.fx_grammar.specs.Formulas.{HasItems, HasTree};

/// Tokens mean one thing at most, so a text has at most one list of tokens with meanings, and at
/// most one tree.
pub fn one_tree_of_a_text()
    ensures meanings { (ls : List Lexeme) (xs ys : List Item) → AllMean ls xs → AllMean ls ys
        → xs ≡ ys }
    ensures items { (cs : List ℕ) (xs ys : List Item) → HasItems cs xs → HasItems cs ys → xs ≡ ys }
    ensures trees { (cs : List ℕ) (n m : ℕ) (t u : Tree) → HasTree n cs t → HasTree m cs u → t ≡ u }
{}
