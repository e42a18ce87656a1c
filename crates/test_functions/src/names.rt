//! The properties of controls, and names in order.

use crate::page::Page;
use fx_base::{InOrder, Memory};
use fx_core::controls::{has_property, input_ty, is_behaviour};
use fx_core::names::{Variable, VariableList};
use fx_types::{Control, Ty, Words};

pub fn write(page: &mut Page) -> Result<(), Memory> {
    page.add("# Properties and names");
    let label_visible = has_property(Control::Label, "Visible");
    let gallery_items = has_property(Control::Gallery, "Items");
    let label_items = has_property(Control::Label, "Items");
    let button_default = has_property(Control::Button, "Default");
    page.add_answer("a label has Visible", label_visible);
    page.add_answer("a gallery has Items", gallery_items);
    page.add_answer("a label has Items", label_items);
    page.add_answer("a button has Default", button_default);
    let checkbox_unchecks = is_behaviour(Control::Checkbox, "OnUncheck");
    let slider_checks = is_behaviour(Control::Slider, "OnCheck");
    page.add_answer("a checkbox acts on OnUncheck", checkbox_unchecks);
    page.add_answer("a slider acts on OnCheck", slider_checks);
    let gives_number = matches!(input_ty(Control::Slider), Some(Ty::Number));
    page.add_answer("a slider gives a number", gives_number);
    add_variables(page)
}

fn add_variables(page: &mut Page) -> Result<(), Memory> {
    let mut variables: VariableList = InOrder::new(page.alloc);
    let name = Words::of(page.alloc, "counter")?;
    variables.push(Variable {
        name,
        screen: None,
        ty: Ty::Number,
    })?;
    page.add_made(format!(in page.alloc; "variables: {}", variables.len()));
    page.add_answer("there is a second one", variables.get(1).is_some());
    Ok(())
}
