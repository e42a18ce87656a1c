//! Scopes of calls over tables that stand in one another.
ghost use Rattle.std.specs.Prelude.{◌≡◌, map};
ghost use Rattle.fx_typing.specs.Typing as typing;
ghost use Rattle.fx_resolve.specs.MeaningView.{place_view};
ghost use Rattle.fx_resolve.specs.PartView.{judged_part};
ghost use Rattle.fx_resolve.specs.PlanView.{tree_head};
ghost use Rattle.fx_resolve.specs.SettingView.{setting};

use fx_core::expr::Expr;
use fx_resolve::{Part, Place, Scopes, Stand, opens_rows};

/// Whether a node opens a fourth scope of a call over a table.
pub fn is_too_deep(at: &Place, scopes: &Scopes, stand: Stand, whole: &Expr, all: &[Part]) -> bool
    ensures { result ≡ typing.is_too_deep (place_view at.now) (setting scopes.now stand)
        (tree_head whole.now)
        (map judged_part all.now) }
{
    opens_rows(at.names, stand.grant, whole, all) && 2 < scopes.depth()
}
