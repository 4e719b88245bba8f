//! The dictionary: the tables that it tells of, with their columns, their keys, and where a column's
//! value lies; and what a definition writes into it.
#![tactic(auto)]

mod asked;
mod column;
mod databank;
mod definition;
mod described;
mod error;
mod laws;
mod lookup;
mod name;
mod number;
mod place;
mod planning;
mod reading;
mod row;
mod table;

pub use column::{ColumnDef, ColumnDefs};
pub use definition::{Definition, FileWork};
pub use error::CatalogError;
pub use laws::tells_what_is_planned;
pub use lookup::table_named;
pub use name::{has_name_form, is_named};
pub use planning::plan_definition;
pub use reading::{dictionary_key, dictionary_range, table_in_row, table_of};
pub use table::{Places, TableDef};
