//! Refusals as JSON.
ghost use Rattle.view_text.specs.RefusalText.{Fits};

use crate::page::Page;
use fx_base::Memory;
use fx_types::Words;
use view_text::{Detail, Lines, Refusal, refusal_json};

pub fn write(page: &mut Page) -> Result<(), Memory> {
    let alloc = page.alloc;
    page.add("# Refusals");
    add(page, 9, Detail::None);
    add(page, 13, Detail::Number(1));
    add(page, 19, Detail::Id(None));
    add(page, 19, Detail::Id(Some(7)));
    let column = Words::of(alloc, "Name")?;
    let rule = Words::of(alloc, "required")?;
    add(page, 23, Detail::Row(0, column, rule));
    let mut lines = Lines::new(alloc);
    lines.push(Words::of(alloc, "B: E8 NoFunction at 0: b")?)?;
    add(page, 24, Detail::Lines(lines));
    Ok(())
}

fn add(page: &mut Page, code: u8, detail: Detail)
    requires { Fits code detail }
{
    page.add_made(refusal_json(page.alloc, &Refusal { code, detail }));
}
