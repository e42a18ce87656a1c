//! The body of an edit.
ghost use Rattle.std.specs.Prelude.{◌≡◌, ◌≤◌, IfOk, IfSome};
ghost use Rattle.serde_json.specs.View.{view as json_view};
ghost use Rattle.numbered_requests.specs.Bodies.{edit_in};

use crate::body::Body;
use crate::values::{member_count, number_at, text_at};
use fx_base::Memory;
use fx_types::Words;
use serde_json::Value as Json;
use std::alloc::Global;

/// An edit under its number: the address of a formula, and its new text.
#[derive(Drop)]
pub struct Edit {
    pub seq: u32,
    pub cell: Words,
    pub text: Words,
}

impl Body for Edit {
    ghost asked = { edit_in };

    ghost number = { λ e. e.seq };

    ghost sound = { λ e. 1 ≤ e.seq };

    fn read(alloc: Global, json: &Json) -> Result<Option<Edit>, Memory> {
        if member_count(json) != 3 {
            return Ok(None);
        }
        let Some(seq) = number_at(json, "seq") else {
            return Ok(None);
        };
        let (Some(cell), Some(text)) = (
            text_at(alloc, json, "cell")?,
            text_at(alloc, json, "text")?,
        ) else {
            return Ok(None);
        };
        Ok(Some(Edit { seq, cell, text }))
    }

    fn seq(&self) -> u32 {
        self.seq
    }

    ghost counted = { λ e h. h };
}
