//! Laws of the grammar, each proved once for all lists of tokens.
ghost use Rattle.std.specs.Prelude.{◌≡◌, ℕ, List};
ghost use Rattle.fx_core.specs.Tree.{Tree};
ghost use Rattle.fx_grammar.specs.declared.item.Item.{Item};
ghost use Rattle.fx_grammar.specs.Grammar.{IsFormula};

/// Tokens have one tree at most, of one depth.
pub fn one_formula()
    ensures { (ts : List Item) (d e : ℕ) (t u : Tree) → IsFormula ts d t → IsFormula ts e u
        → (t ≡ u) × (d ≡ e) }
{}
