//! Formulas by their addresses.
ghost use Rattle.std.specs.Prelude.{◌≡◌, bytes_eq, encode_utf8_all};
ghost use Rattle.std.specs.List.{position_from};
ghost use Rattle.app_cells.specs.declared.app.CellInfo.{CellInfo as Info};
ghost use Rattle.app_loader.specs.Edits.{IsLoaded};

use app_cells::App;

/// The number of the formula that is written at an address. None where none is written there.
pub fn find(app: &App, address: &str) -> Option<u32>
    requires { IsLoaded app.now }
    ensures { result ≡ position_from (λ (i : Info). bytes_eq (encode_utf8_all i.cell.name)
        address.now) 0 app.now.cells }
{
    let mut number = 0;
    for info in app.cells.as_slice() {
        if info.cell.name.as_str() == address {
            return Some(number);
        }
        number += 1;
    }
    None
}
