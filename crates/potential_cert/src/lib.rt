//! Tables of positions with costs, the bound that they support, and their bytes.
#![tactic(auto)]

pub mod cursor;
pub mod end;
pub mod laws;
pub mod reading;
pub mod row_search;
pub mod supporting;
pub mod tables;
pub mod writing;

pub use end::TableEnd;
pub use reading::read_table;
pub use row_search::{row_cost, row_place};
pub use supporting::support;
pub use tables::{Row, Table};
pub use writing::write_table;
