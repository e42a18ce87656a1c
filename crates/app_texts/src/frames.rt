//! What an app file has beside its formulas.
ghost use Rattle.std.specs.Prelude.{◌≡◌, ◌<◌, ◌≤◌, ◌+◌, ◌++◌, All, IfOk, IfSome, OnOk, length, map};
ghost use Rattle.app_file.specs.declared.file.ControlShape.{ControlShape as Shape};
ghost use Rattle.app_texts.specs.Files as files;

use app_cells::Frame;
use app_file::{ControlShape, ScreenShape};
use fx_base::{InOrder, Memory};
use fx_core::names::{ControlList, ControlName, ScreenList};
use fx_core::schema::Schema;
use fx_types::types::Ty;
use std::alloc::Global;

// A control of this screen, of whose controls the first has this number.
fn control_of(
    alloc: Global,
    screen: u32,
    first: u32,
    shape: &ControlShape,
) -> Result<ControlName, Memory>
    requires gallery { IfSome shape.now.gallery (λ g. first + g < 500) }
    ensures { IfOk result (λ c. c ≡ files.control_of screen first shape.now) }
{
    let gallery = match shape.gallery {
        Some(place) => Some(first + place as u32),
        None => None,
    };
    Ok(ControlName {
        name: shape.name.copy(alloc)?,
        kind: shape.kind,
        screen,
        gallery,
        items: Ty::Blank,
    })
}

// Adds the controls of a screen.
fn put_controls(
    alloc: Global,
    screen: u32,
    first: u32,
    shapes: &[ControlShape],
    controls: &mut ControlList,
) -> Result<(), Memory>
    requires few { first + length shapes.now ≤ 500 }
    requires galleries { All (λ (c : Shape). files.IsGalleryShapeAt shapes.now c.gallery) shapes.now }
    ensures { OnOk result (controls.new ≡ controls.old
        ++ map (files.control_of screen first) shapes.now) }
{
    for shape in shapes {
        controls.push(control_of(alloc, screen, first, shape)?)?;
    }
    Ok(())
}

// The controls of all screens.
fn controls_of(alloc: Global, screens: &[ScreenShape]) -> Result<ControlList, Memory>
    requires few { length screens.now ≤ 64 }
    requires few_controls { length (files.controls_from 0 0 screens.now) ≤ 500 }
    requires galleries { All files.HasGalleries screens.now }
    ensures { IfOk result (λ cs. cs ≡ files.controls_from 0 0 screens.now) }
{
    let mut controls = InOrder::new(alloc);
    let mut number = 0;
    let mut first = 0;
    for screen in screens {
        put_controls(
            alloc,
            number,
            first,
            screen.controls.as_slice(),
            &mut controls,
        )?;
        number += 1;
        first += screen.controls.len() as u32;
    }
    Ok(controls)
}

// The names of screens.
fn names_of(alloc: Global, screens: &[ScreenShape]) -> Result<ScreenList, Memory>
    ensures { IfOk result (λ names. names ≡ files.screen_names screens.now) }
{
    let mut names = InOrder::new(alloc);
    for screen in screens {
        names.push(screen.name.copy(alloc)?)?;
    }
    Ok(names)
}

/// What an app of these tables, this row limit and these screens has beside its formulas.
pub fn frame_of(
    alloc: Global,
    schema: Schema,
    limit: u32,
    screens: &[ScreenShape],
) -> Result<Frame, Memory>
    requires few { length screens.now ≤ 64 }
    requires few_controls { length (files.controls_from 0 0 screens.now) ≤ 500 }
    requires galleries { All files.HasGalleries screens.now }
    ensures { IfOk result (λ f. f ≡ files.frame_by schema limit screens.now) }
{
    Ok(Frame {
        schema,
        limit,
        screens: names_of(alloc, screens)?,
        controls: controls_of(alloc, screens)?,
    })
}
