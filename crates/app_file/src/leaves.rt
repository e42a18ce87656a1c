//! The parts of an app file that have no parts.
ghost use Rattle.std.specs.Prelude.{◌≡◌, option_map};
ghost use Rattle.serde_json.specs.View.{view};
ghost use Rattle.app_file.specs.FormOfApp as form_of_app;

use crate::parts::Part;
use crate::paths::{Unread, unreadable};
use fx_types::controls::Control;
use fx_types::types::Ty;
use fx_types::words::Words;
use serde_json::Value as Json;
use std::alloc::Global;

/// The format of an app file.
#[derive(Clone, Copy)]
pub enum Format {
    /// `pfx-1`
    First,
}

/// A text that isn't empty.
#[derive(Drop)]
pub struct Name(pub Words);

/// A row limit, 1 to 2,000.
#[derive(Clone, Copy)]
pub struct RowLimit(pub u32);

impl Part for Words {
    ghost use Rattle.app_file.specs.Contents.{words};
    ghost use Rattle.app_file.specs.FormOfApp.{text};

    ghost form = { text };

    ghost held = { words };

    fn read(alloc: Global, part: &Json) -> Result<Words, Unread> {
        match part.as_str() {
            Some(text) => Ok(Words::of(alloc, text)?),
            None => Err(unreadable(alloc)),
        }
    }
}

// A text that isn't empty.
fn filled_text(part: &Json) -> Option<&str>
    ensures { option_map (λ s. s.now) result ≡ form_of_app.filled_text (view part.now) }
{
    match part.as_str() {
        Some(text) => unless_empty(text),
        None => None,
    }
}

fn unless_empty(text: &str) -> Option<&str>
    ensures { option_map (λ s. s.now) result ≡ form_of_app.nonempty text.now }
{
    if text.is_empty() { None } else { Some(text) }
}

impl Part for Name {
    ghost use Rattle.app_file.specs.Contents.{words};
    ghost use Rattle.app_file.specs.FormOfApp.{name};

    ghost form = { name };

    ghost held = { λ d. record { 0 = words d } };

    fn read(alloc: Global, part: &Json) -> Result<Name, Unread> {
        match filled_text(part) {
            Some(text) => Ok(Name(Words::of(alloc, text)?)),
            None => Err(unreadable(alloc)),
        }
    }
}

impl Part for bool {
    ghost use Rattle.app_file.specs.Contents.{truth};
    ghost use Rattle.app_file.specs.FormOfApp.{flag};

    ghost form = { flag };

    ghost held = { truth };

    fn read(alloc: Global, part: &Json) -> Result<bool, Unread> {
        match part.as_bool() {
            Some(flag) => Ok(flag),
            None => Err(unreadable(alloc)),
        }
    }
}

fn row_limit_of(part: &Json) -> Option<u32>
    ensures { result ≡ form_of_app.row_limit_of (view part.now) }
{
    match part.as_u64() {
        Some(number) => row_limit_of_number(number),
        None => None,
    }
}

fn row_limit_of_number(number: u64) -> Option<u32>
    ensures { result ≡ form_of_app.row_limit_of_number number }
{
    if 1 <= number && number <= 2_000 {
        Some(number as u32)
    } else {
        None
    }
}

impl Part for RowLimit {
    ghost use Rattle.app_file.specs.Contents.{limit};
    ghost use Rattle.app_file.specs.FormOfApp.{leaf, row_limit_of};

    ghost form = { leaf row_limit_of };

    ghost held = { λ d. record { 0 = limit d } };

    fn read(alloc: Global, part: &Json) -> Result<RowLimit, Unread> {
        match row_limit_of(part) {
            Some(limit) => Ok(RowLimit(limit)),
            None => Err(unreadable(alloc)),
        }
    }
}

fn format_of(part: &Json) -> Option<Format>
    ensures { result ≡ form_of_app.format_member (view part.now) }
{
    match part.as_str() {
        Some(name) => format_named(name),
        None => None,
    }
}

fn format_named(name: &str) -> Option<Format>
    ensures { result ≡ form_of_app.format_named name.now }
{
    if name == "pfx-1" {
        Some(Format::First)
    } else {
        None
    }
}

impl Part for Format {
    ghost use Rattle.std.specs.Prelude.{unwrap_or};
    ghost use Rattle.app_file.specs.FormOfApp.{leaf, format_member};
    ghost use Rattle.app_file.specs.declared.leaves.Format.TheVariants as formats;

    ghost form = { leaf format_member };

    ghost held = { λ d. unwrap_or (format_member d) formats.First };

    fn read(alloc: Global, part: &Json) -> Result<Format, Unread> {
        match format_of(part) {
            Some(format) => Ok(format),
            None => Err(unreadable(alloc)),
        }
    }
}

fn column_type_of(part: &Json) -> Option<Ty>
    ensures { result ≡ form_of_app.column_type_of (view part.now) }
{
    match part.as_str() {
        Some(name) => type_named(name),
        None => None,
    }
}

fn type_named(name: &str) -> Option<Ty>
    ensures { result ≡ form_of_app.type_named name.now }
{
    if name == "Number" {
        Some(Ty::Number)
    } else if name == "Text" {
        Some(Ty::Text)
    } else if name == "Boolean" {
        Some(Ty::Boolean)
    } else if name == "Date" {
        Some(Ty::Date)
    } else {
        None
    }
}

impl Part for Ty {
    ghost use Rattle.app_file.specs.Contents.{column_ty};
    ghost use Rattle.app_file.specs.FormOfApp.{column_type_of, leaf};

    ghost form = { leaf column_type_of };

    ghost held = { column_ty };

    fn read(alloc: Global, part: &Json) -> Result<Ty, Unread> {
        match column_type_of(part) {
            Some(ty) => Ok(ty),
            None => Err(unreadable(alloc)),
        }
    }
}

fn kind_of(part: &Json) -> Option<Control>
    ensures { result ≡ form_of_app.control_kind (view part.now) }
{
    match part.as_str() {
        Some(name) => kind_named(name),
        None => None,
    }
}

fn kind_named(name: &str) -> Option<Control>
    ensures { result ≡ form_of_app.kind_named name.now }
{
    if name == "Label" {
        Some(Control::Label)
    } else if name == "Button" {
        Some(Control::Button)
    } else if name == "TextInput" {
        Some(Control::TextInput)
    } else if name == "Slider" {
        Some(Control::Slider)
    } else if name == "Checkbox" {
        Some(Control::Checkbox)
    } else if name == "DatePicker" {
        Some(Control::DatePicker)
    } else if name == "Gallery" {
        Some(Control::Gallery)
    } else {
        None
    }
}

impl Part for Control {
    ghost use Rattle.app_file.specs.Contents.{kind};
    ghost use Rattle.app_file.specs.FormOfApp.{control_kind, leaf};

    ghost form = { leaf control_kind };

    ghost held = { kind };

    fn read(alloc: Global, part: &Json) -> Result<Control, Unread> {
        match kind_of(part) {
            Some(kind) => Ok(kind),
            None => Err(unreadable(alloc)),
        }
    }
}
