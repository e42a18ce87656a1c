//! The scopes around a formula.
ghost use Rattle.std.specs.Prelude.{◌≡◌, ◌++◌, ◌∷◌, [], OnErr, OnOk, length, map, take};
ghost use Rattle.fx_typing.specs.Plans.{depth_of};
ghost use Rattle.fx_resolve.specs.ScopeView.{scope};

use fx_base::Memory;
use fx_types::types::Ty;
use fx_types::words::Words;
use std::alloc::Global;
use std::marker::Model;

/// A scope of the rows of a table, or of a record.
#[derive(Drop)]
pub struct Scope {
    /// The type of a row, or of the record.
    pub row_type: Ty,
    /// The name of the rows, under which alone they are found.
    pub alias: Option<Words>,
    /// Whether it is that of a call over a table, of which only three may stand around one another.
    pub counted: bool,
}

/// The scopes around a formula, from the outside.
#[derive(Drop)]
pub struct Scopes {
    items: Vec<Scope>,
}

impl Model for Scopes {
    ghost use Rattle.std.specs.Prelude.{List, map};
    ghost use Rattle.std.specs.Coded.{coded_list};
    ghost use Rattle.fx_typing.specs.Meaning as meaning;
    ghost use Rattle.fx_resolve.specs.ScopeCode.{scope_code};

    ghost Value = { List meaning.Scope };

    ghost coded = { coded_list scope_code };

    ghost use Rattle.fx_resolve.specs.ScopeView.{scope};

    ghost view = { λ a. map scope a.items.items };
}

impl Scopes {
    /// No scopes.
    pub fn new(alloc: Global) -> Scopes
        ensures { result ≡ [] }
    {
        Scopes {
            items: Vec::new(alloc),
        }
    }

    /// Adds the innermost scope.
    pub fn push(&mut self, inner: Scope) -> Result<(), Memory>
        ensures ok { OnOk result (self.new ≡ self.old ++ scope inner ∷ []) }
        ensures err { OnErr result (self.new ≡ self.old) }
    {
        self.items.push(inner)?;
        Ok(())
    }

    /// How many scopes there are.
    pub fn len(&self) -> usize
        ensures { result ≡ length self.now }
    {
        self.items.len()
    }

    /// Leaves so many of the outermost scopes, and all where there are fewer.
    pub fn cut(&mut self, count: usize)
        ensures { self.new ≡ take count self.old }
    {
        self.items.truncate(count);
    }

    /// The scopes from the outside.
    pub fn as_slice(&self) -> &[Scope]
        ensures { map scope result.now ≡ self.now }
    {
        self.items.as_slice()
    }

    /// How many scopes of calls over tables there are.
    pub fn depth(&self) -> usize
        ensures { result ≡ depth_of self.now }
    {
        depth(self.items.as_slice())
    }
}

fn depth(scopes: &[Scope]) -> usize
    ensures { result ≡ depth_of (map scope scopes.now) }
{
    let mut depth = 0;
    for inner in scopes {
        if inner.counted {
            depth += 1;
        }
    }
    depth
}
