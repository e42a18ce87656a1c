//! The values of an app's formulas over a session, a day and the rows of a keeper: all of them
//! evaluated afresh, or kept for a session until something changes on which they stand.
#![tactic(auto)]

mod cache;
mod carrying;
mod changing;
mod chosen_items;
mod clearing;
mod dirty_cells;
pub mod evaluating;
pub mod ids;
pub mod laws;
mod reading;
mod refresh;
pub mod row_reading;
pub mod session_sources;
mod single;
pub mod source_values;
pub mod stamps;
mod standing;
pub mod tables;
pub mod templates;
mod trees;
pub mod valued;

pub use app_semantics;
use app_semantics::app_cells;
pub use cache::Cache;
pub use carrying::old_cells;
pub use evaluating::end_of;
pub use fx_env::Steps;
use fx_eval::fx_plan;
pub use fx_semantics;
pub use ids::{id_name, item_id};
pub use row_reading::stop_of;
pub use session_sources::{cell_behind, cell_of_property};
pub use source_values::given_value;
pub use tables::table_value;
pub use templates::{is_true, is_visible, is_visible_for_item, property_for_item};
pub use valued::{Valued, evaluate, stands_alone};
