//! The properties of controls.
ghost use Rattle.std.specs.Prelude.{◌≡◌, option_map};
ghost use Rattle.fx_types.specs.TypeView.{shape};
ghost use Rattle.fx_core.specs.Controls as table;

use fx_types::controls::Control;
use fx_types::types::Ty;

/// The type of a property whose formula is pure, other than `Items`. None for another name.
pub fn property_ty(kind: Control, name: &str) -> Option<Ty>
    ensures { option_map shape result ≡ table.property_type kind name.now }
{
    if name == "Visible" {
        return Some(Ty::Boolean);
    }
    match kind {
        Control::Label | Control::Button if name == "Text" => Some(Ty::Text),
        Control::TextInput if name == "Default" => Some(Ty::Text),
        Control::Slider if name == "Min" || name == "Max" || name == "Default" => Some(Ty::Number),
        Control::Checkbox if name == "Text" => Some(Ty::Text),
        Control::Checkbox if name == "Default" => Some(Ty::Boolean),
        Control::DatePicker if name == "DefaultDate" => Some(Ty::Date),
        _ => None,
    }
}

/// Whether a property's formula is one that acts.
pub fn is_behaviour(kind: Control, name: &str) -> bool
    ensures { result ≡ table.is_behaviour kind name.now }
{
    match kind {
        Control::Label | Control::Button | Control::Gallery => name == "OnSelect",
        Control::TextInput | Control::Slider | Control::DatePicker => name == "OnChange",
        Control::Checkbox => name == "OnCheck" || name == "OnUncheck",
    }
}

/// Whether a control of this kind has a property of this name, which may be written.
pub fn has_property(kind: Control, name: &str) -> bool
    ensures { result ≡ table.has_property kind name.now }
{
    property_ty(kind, name).is_some()
        || is_behaviour(kind, name)
        || (kind == Control::Gallery && name == "Items")
}

/// The type of what the user gives to a control of this kind. None for a kind that takes no input.
pub fn input_ty(kind: Control) -> Option<Ty>
    ensures { option_map shape result ≡ table.input_type kind }
{
    match kind {
        Control::TextInput => Some(Ty::Text),
        Control::Slider => Some(Ty::Number),
        Control::Checkbox => Some(Ty::Boolean),
        Control::DatePicker => Some(Ty::Date),
        Control::Label | Control::Button | Control::Gallery => None,
    }
}
