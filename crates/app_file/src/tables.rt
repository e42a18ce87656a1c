//! The tables of an app file.
ghost use Rattle.std.specs.Prelude.{◌≡◌};

use crate::keys::{Object, check_keys};
use crate::leaves::Name;
use crate::parts::{Element, read_member, read_member_or};
use crate::paths::Unread;
use fx_base::InOrder;
use fx_core::{Column, TableShape};
use serde_json::Value as Json;
use std::alloc::Global;

impl Element for Column {
    ghost use Rattle.app_file.specs.Contents.{column};
    ghost use Rattle.app_file.specs.FormOfApp.{column_fields};
    ghost use Rattle.app_file.specs.Forms.{members};

    ghost element_form = { λ before. members column_fields };

    ghost element_held = { column };

    fn read_behind(alloc: Global, _before: &[Json], part: &Json) -> Result<Column, Unread> {
        check_keys(alloc, part, Object::Column)?;
        let name: Name = read_member(alloc, part, "name")?;
        let ty = read_member(alloc, part, "type")?;
        let required = read_member_or(alloc, part, "required", false)?;
        let unique = read_member_or(alloc, part, "unique", false)?;
        let indexed = read_member_or(alloc, part, "indexed", false)?;
        Ok(Column {
            name: name.0,
            ty,
            required,
            unique,
            indexed,
        })
    }
}

impl Element for TableShape {
    ghost use Rattle.app_file.specs.Contents.{table_shape};
    ghost use Rattle.app_file.specs.FormOfApp.{table_fields};
    ghost use Rattle.app_file.specs.Forms.{members};

    ghost element_form = { λ before. members table_fields };

    ghost element_held = { table_shape };

    fn read_behind(alloc: Global, _before: &[Json], part: &Json) -> Result<TableShape, Unread> {
        check_keys(alloc, part, Object::Table)?;
        let name: Name = read_member(alloc, part, "name")?;
        let columns = read_member(alloc, part, "columns")?;
        Ok(TableShape {
            name: name.0,
            columns,
        })
    }
}
