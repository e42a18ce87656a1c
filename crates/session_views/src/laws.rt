//! Laws of views.
ghost use Rattle.session_views.specs.Laws.{OneItems, OneItemsReply, OneItemsVisit, OneScreenVisits};
ghost use Rattle.session_views.specs.Laws.{OneView, OneViewReply};

use crate::app_semantics::one_fresh_at;
use crate::fx_semantics::one_value;
use recalc::laws::item_visits_are_one;

/// A law, and no work: at a moment a session has one view.
pub fn one_view()
    ensures { OneView }
{
    one_value();
    one_fresh_at();
}

/// A law, and no work: at a moment a gallery has one list of items from a position on.
pub fn one_items()
    ensures { OneItems }
{
    one_value();
    one_fresh_at();
}

/// A law, and no work: the app, the moment and the session determine the reply that shows a view.
pub fn one_view_reply()
    ensures { OneViewReply }
{
    one_view();
}

/// A law, and no work: with a gallery and a position they determine the reply that shows its items.
pub fn one_items_reply()
    ensures { OneItemsReply }
{
    one_items();
}

/// A law, and no work: how many rows the formulas of templates visit for what a screen shows is one
/// number, where all that its app reads is told.
pub fn screen_visits_are_one()
    ensures { OneScreenVisits }
{
    one_value();
    one_fresh_at();
    item_visits_are_one();
}

/// A law, and no work: so it is with the items of a gallery from a position on.
pub fn items_visits_are_one()
    ensures { OneItemsVisit }
{
    one_value();
    one_fresh_at();
    item_visits_are_one();
}
