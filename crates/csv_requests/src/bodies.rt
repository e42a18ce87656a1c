//! The bodies of imports.
ghost use Rattle.csv_requests.specs.Bodies.{IsSoundImport, imported_in};

use fx_base::Memory;
use fx_types::Words;
use numbered_requests::Body;
use numbered_requests::values::{member_count, number_at, text_at};
use serde_json::Value as Json;
use std::alloc::Global;

/// An import under its number.
#[derive(Drop)]
pub struct Imported {
    pub seq: u32,
    /// The table's name.
    pub table: Words,
    /// The name of the column by whose values rows are found.
    pub key: Words,
    /// The text of records.
    pub csv: Words,
}

impl Body for Imported {
    ghost asked = { imported_in };

    ghost number = { λ p. p.seq };

    ghost sound = { IsSoundImport };

    fn read(alloc: Global, json: &Json) -> Result<Option<Imported>, Memory> {
        if member_count(json) != 4 {
            return Ok(None);
        }
        let Some(seq) = number_at(json, "seq") else {
            return Ok(None);
        };
        let (Some(table), Some(key), Some(csv)) = (
            text_at(alloc, json, "table")?,
            text_at(alloc, json, "key")?,
            text_at(alloc, json, "csv")?,
        ) else {
            return Ok(None);
        };
        Ok(Some(Imported {
            seq,
            table,
            key,
            csv,
        }))
    }

    fn seq(&self) -> u32 {
        self.seq
    }

    ghost counted = { λ p h. h.number };
}
