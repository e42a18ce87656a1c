//! The app of the load.
ghost use Rattle.std.specs.Prelude.{◌≡◌};
ghost use Rattle.sample_app.specs.Sample.{app_text};

/// The app's file: a table of stock, a label that shows the sum of its quantities, and a button
/// that takes one piece from the row of a number.
#[tactic(auto, unfolding(crate::specs::Sample::app_text))]
pub fn app_text() -> &'static [u8]
    ensures { result.now ≡ app_text }
{
    b"{\"format\":\"pfx-1\",\"tables\":[{\"name\":\"Stock\",\"columns\":[{\"name\":\"Name\",\"type\":\"Text\",\"required\":true},{\"name\":\"Qty\",\"type\":\"Number\",\"indexed\":true}]}],\"onStart\":\"Set(n, 0)\",\"screens\":[{\"name\":\"Home\",\"controls\":[{\"name\":\"Total\",\"kind\":\"Label\",\"properties\":{\"Text\":\"Sum(Stock, Qty)\"}},{\"name\":\"Take\",\"kind\":\"Button\",\"properties\":{\"OnSelect\":\"Set(n, n + 1); With({row: LookUp(Stock, ID = n * 3)}, Patch(Stock, row, {Qty: row.Qty - 1}))\"}}]}]}"
}
