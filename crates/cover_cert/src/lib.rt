//! Tables of positions with costs whose steps may name a row that covers where they lead: the laws of the bound that they support, their
//! check, their bytes, and the search that makes them.
#![tactic(auto)]

pub mod checking;
pub mod covering;
pub mod end;
pub mod laws;
mod making;
mod numbering;
mod pieces;
pub mod reading;
mod row_tests;
pub mod searching;
mod supporting;
pub mod tables;
pub mod writing;

pub use checking::check_cover;
pub use covering::covers;
pub use end::CoverEnd;
pub use reading::read_cover;
pub use searching::{CoverFound, cover_search, cover_search_counted};
pub use tables::{Cover, CoverRow, CoverTable};
pub use writing::write_cover;
