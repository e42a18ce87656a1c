//! Values as the fields of a text of records, both ways: what fields spell in a column, the field
//! of each value, and the law that what is written is read back.
#![tactic(auto)]

mod fields;
mod laws;
mod spelled;

pub use fields::{field_text, field_value};
pub use laws::fields_read_back;
pub use spelled::{spelled_day, spelled_number, spelled_truth};
