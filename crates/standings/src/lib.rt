//! How results stand: the traveller of a board by Law 78A, and the ranking of a session's pairs.
#![tactic(auto)]

mod cell_result;
mod earning;
mod earnings;
pub mod laws;
mod push;
mod ranking;
mod row_result;
mod table_result;
mod traveller;
mod traveller_row;
mod units;

pub use cell_result::CellResult;
pub use earning::Earning;
pub use earnings::{add_earnings, put_earnings};
pub use ranking::{ranked, ranking_of, standing_of};
pub use row_result::RowResult;
pub use table_result::TableResult;
pub use traveller::traveller_rows;
pub use traveller_row::TravellerRow;
