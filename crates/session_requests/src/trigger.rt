//! What makes formulas act, and which formulas these are.
ghost use Rattle.std.specs.Prelude.{◌≡◌, ◌<◌, IfSome, length};
ghost use Rattle.session_requests.specs.Triggers.{cell_at as cell_of, is_at as is_place_of};
ghost use Rattle.session_requests.specs.Triggers.{is_property_named as is_property_of};
ghost use Rattle.session_requests.specs.Triggers.{is_on_visible as is_visible_of};

use crate::app_cells::{App, CellInfo, Spot};

/// What makes a formula act. Numbers are places in the lists of the app's names, from 0.
#[derive(Clone, Copy, Debug, PartialEq, Eq)]
pub enum Trigger {
    /// A session is opened.
    OnStart,
    /// A screen is shown.
    OnVisible(u32),
    /// A control, or an item of a gallery, is selected.
    OnSelect(u32),
    /// A user's input was accepted.
    OnChange(u32),
    /// A box is checked.
    OnCheck(u32),
    /// A box isn't checked any more.
    OnUncheck(u32),
}

// Whether a place is that of a property of a control.
fn is_property(spot: &Spot, control: u32, name: &str) -> bool
    ensures { result ≡ is_property_of control name.now spot.now }
{
    match spot {
        Spot::Property(number, property) => *number == control && property.as_str() == name,
        _ => false,
    }
}

// Whether a place is that of what acts as a screen is shown.
fn is_visible(spot: &Spot, screen: u32) -> bool
    ensures { result ≡ is_visible_of screen spot.now }
{
    matches!(spot, Spot::OnVisible(number) if *number == screen)
}

// Whether a formula stands at the place of a trigger.
fn is_at(spot: &Spot, trigger: Trigger) -> bool
    ensures { result ≡ is_place_of trigger spot.now }
{
    match trigger {
        Trigger::OnStart => matches!(spot, Spot::OnStart),
        Trigger::OnVisible(screen) => is_visible(spot, screen),
        Trigger::OnSelect(control) => is_property(spot, control, "OnSelect"),
        Trigger::OnChange(control) => is_property(spot, control, "OnChange"),
        Trigger::OnCheck(control) => is_property(spot, control, "OnCheck"),
        Trigger::OnUncheck(control) => is_property(spot, control, "OnUncheck"),
    }
}

/// The place of the formula that acts at a trigger, among an app's formulas, if one is written.
pub(crate) fn cell_at(app: &App, trigger: Trigger) -> Option<usize>
    ensures place { result ≡ cell_of trigger app.now }
    ensures within { IfSome result (λ k. k < length app.now.cells) }
{
    app.cells
        .as_slice()
        .iter()
        .position(|info: &CellInfo| is_at(&info.cell.spot, trigger))
}
