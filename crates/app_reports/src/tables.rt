// The names of tables.
ghost use Rattle.std.specs.Prelude.{◌≡◌, encode_utf8_all};
ghost use Rattle.app_reports.specs.Plans.{table_name as name_of};

use fx_core::Schema;

/// The name of a table by its number, and none where there is no table.
pub(crate) fn table_name(schema: &Schema, table: u16) -> &str
    ensures { result.now ≡ encode_utf8_all (name_of schema.now.tables table) }
{
    match schema.tables.get(table as usize) {
        Some(shape) => shape.name.as_str(),
        None => "",
    }
}
