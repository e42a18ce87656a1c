//! The texts of an app file's formulas, where they stand.
ghost use Rattle.std.specs.Prelude.{◌≡◌, ◌≤◌, ◌+◌, ◌++◌, ◌∷◌, [], IfOk, OnOk, encode_utf8_all};
ghost use Rattle.std.specs.Prelude.{length};
ghost use Rattle.std.specs.List.{filter};
ghost use Rattle.app_texts.specs.Files as files;
ghost use Rattle.app_texts.specs.Files.{IsSoundFile, formula_texts};

use app_cells::Spot;
use app_file::{AppFile, ControlShape, ScreenShape};
use fx_base::Memory;
use fx_types::words::Words;
use std::alloc::Global;

/// The text of a formula, where it stands.
#[derive(Drop)]
pub struct Text {
    pub spot: Spot,
    pub text: Words,
}

fn is_empty(text: &Words) -> bool
    ensures { result ≡ files.is_empty_text (encode_utf8_all text.now) }
{
    text.as_str().is_empty()
}

// Adds a text, if it is a formula's.
fn put_text(alloc: Global, spot: Spot, text: &Words, texts: &mut Vec<Text>) -> Result<(), Memory>
    ensures { OnOk result (texts.new.items ≡ texts.old.items
        ++ filter files.is_written (files.text_of_spot spot text.now ∷ [])) }
{
    if !is_empty(text) {
        let text = text.copy(alloc)?;
        texts.push(Text { spot, text })?;
    }
    Ok(())
}

// Adds the texts of a control's properties.
fn put_properties(
    alloc: Global,
    number: u32,
    control: &ControlShape,
    texts: &mut Vec<Text>,
) -> Result<(), Memory>
    ensures { OnOk result (texts.new.items ≡ texts.old.items
        ++ filter files.is_written (files.property_texts number control.now)) }
{
    for property in control.properties.as_slice() {
        let spot = Spot::Property(number, property.name.copy(alloc)?);
        put_text(alloc, spot, &property.text, texts)?;
    }
    Ok(())
}

// Adds the texts of controls, which are numbered from this number on.
fn put_controls(
    alloc: Global,
    first: u32,
    controls: &[ControlShape],
    texts: &mut Vec<Text>,
) -> Result<(), Memory>
    requires { first + length controls.now ≤ 500 }
    ensures { OnOk result (texts.new.items ≡ texts.old.items
        ++ filter files.is_written (files.texts_of_controls first controls.now)) }
{
    let mut number = first;
    for control in controls {
        put_properties(alloc, number, control, texts)?;
        number += 1;
    }
    Ok(())
}

// Adds the texts of screens and of their controls.
fn put_screens(alloc: Global, screens: &[ScreenShape], texts: &mut Vec<Text>) -> Result<(), Memory>
    requires few { length screens.now ≤ 64 }
    requires few_controls { length (files.controls_from 0 0 screens.now) ≤ 500 }
    ensures { OnOk result (texts.new.items ≡ texts.old.items
        ++ filter files.is_written (files.texts_of_screens 0 0 screens.now)) }
{
    let mut number = 0;
    let mut first = 0;
    for screen in screens {
        put_text(alloc, Spot::OnVisible(number), &screen.on_visible, texts)?;
        put_controls(alloc, first, screen.controls.as_slice(), texts)?;
        number += 1;
        first += screen.controls.len() as u32;
    }
    Ok(())
}

/// The texts of the formulas that a file has beside its named ones, in the order of the app.
pub fn texts_of(alloc: Global, file: &AppFile) -> Result<Vec<Text>, Memory>
    requires { IsSoundFile file.now }
    ensures { IfOk result (λ v. v.items ≡ formula_texts file.now) }
{
    let mut texts = Vec::new(alloc);
    put_text(alloc, Spot::OnStart, &file.on_start, &mut texts)?;
    put_screens(alloc, file.screens.as_slice(), &mut texts)?;
    Ok(texts)
}
