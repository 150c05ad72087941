//! The test of each window of a certificate by windows against a game. It uses no search: whoever made the certificate, its bound holds if the
//! certificate is valid.
#![tactic(auto)]

pub mod laws;
mod part_test;
mod preparing;
mod row_order;
mod row_tests;
mod table;
mod table_test;

pub use part_test::window_holds;
pub use table::Table;
pub use table_test::is_valid_table;
