//! The types of small apps, and what is broken in them.
ghost use Rattle.std.specs.Prelude.{◌≤◌, All};
ghost use Rattle.fx_infer.specs.Below.{tree_depth};
ghost use Rattle.fx_infer.specs.declared.elaboration.Written.{Written};
ghost use Rattle.fx_core.specs.Lawful.{IsLawful};

use crate::answer::{Answer, Stop};
use crate::apps::{App, app_of};
use crate::tree::DEPTH;
use crate::types::write_type;
use app_names::is_lawful;
use fx_core::line as broken_line;
use fx_core::names::Names;
use fx_infer::{InferEnd, Written, elaborate, type_rounds};
use fx_types::types::Ty;

/// The property of a gallery that gives its rows.
const ITEMS: &str = "Items";

/// Writes the final types of the names of the app of these parts, and behind them the rule that
/// each formula breaks which breaks one; or that the types don't settle.
pub fn write_rounds(answer: &mut Answer, parts: &str) {
    match app_of(answer.alloc, parts) {
        Ok(app) => settle(answer, app),
        Err(why) => answer.stop(why),
    }
}

/// Writes the same of an app.
fn settle(answer: &mut Answer, app: App) {
    let App { names, cells } = app;
    if !is_lawful(&names) {
        return answer.stop(Stop::NoRow);
    }
    match type_rounds(answer.alloc, names, &cells) {
        Ok(names) => write_settled(answer, &names, &cells),
        Err(InferEnd::Broken(broken)) => answer.add_made(broken_line(answer.alloc, &broken)),
        Err(InferEnd::Memory) => answer.stop(Stop::Memory),
    }
}

/// Writes the types of names, and the rules that formulas break.
fn write_settled(answer: &mut Answer, names: &Names, cells: &[Written])
    requires lawful { IsLawful names.now }
    requires shallow { All (λ (c : Written). tree_depth c.expr ≤ 256) cells.now }
{
    write_variables(answer, names);
    for collection in names.collections.as_slice() {
        write_entry(answer, "", collection.name.as_str(), &collection.ty);
    }
    for formula in names.formulas.as_slice() {
        write_entry(answer, "", formula.name.as_str(), &formula.ty);
    }
    write_items(answer, names);
    write_breaks(answer, names, cells);
}

/// Writes the types of variables, of which those of screens are named with them.
fn write_variables(answer: &mut Answer, names: &Names) {
    for variable in names.variables.as_slice() {
        let screen = screen_name(names, variable.screen);
        write_entry(answer, screen, variable.name.as_str(), &variable.ty);
    }
}

/// The name of a screen, or nothing.
fn screen_name(names: &Names, screen: Option<u32>) -> &str {
    let Some(number) = screen else {
        return "";
    };
    match names.screens.get(number as usize) {
        Some(name) => name.as_str(),
        None => "",
    }
}

/// Writes the types of the items of galleries that have a formula of them.
fn write_items(answer: &mut Answer, names: &Names) {
    for property in names.properties.as_slice() {
        if property.name.as_str() == ITEMS {
            match names.controls.get(property.control as usize) {
                Some(control) => write_entry(answer, control.name.as_str(), ITEMS, &control.items),
                None => answer.stop(Stop::NoRow),
            }
        }
    }
}

/// Writes the type of a name, behind that of the screen or control which it is of.
fn write_entry(answer: &mut Answer, owner: &str, name: &str, ty: &Ty) {
    answer.begin_entry();
    answer.add(owner);
    answer.add(if owner.is_empty() { "" } else { "." });
    answer.add(name);
    answer.add(": ");
    write_type(answer, ty, DEPTH);
}

/// Writes the rules that formulas break.
fn write_breaks(answer: &mut Answer, names: &Names, cells: &[Written])
    requires lawful { IsLawful names.now }
    requires shallow { All (λ (c : Written). tree_depth c.expr ≤ 256) cells.now }
{
    for cell in cells {
        write_break(answer, names, cell);
    }
}

/// Writes the rule that a formula breaks, if it breaks one.
fn write_break(answer: &mut Answer, names: &Names, cell: &Written)
    requires lawful { IsLawful names.now }
    requires shallow { tree_depth cell.now.expr ≤ 256 }
{
    match elaborate(answer.alloc, names, cell) {
        Ok(_) => {}
        Err(InferEnd::Broken(broken)) => {
            answer.begin_entry();
            answer.add_made(broken_line(answer.alloc, &broken));
        }
        Err(InferEnd::Memory) => answer.stop(Stop::Memory),
    }
}
