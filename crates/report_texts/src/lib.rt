//! What a session comes to, written: as comma-separated tables, and as a page of HTML.
#![tactic(auto)]

mod csv_tables;
mod fields;
mod hands;
mod html_page;
mod players;
mod points;
mod record_writer;
mod results;

pub use csv_tables::csv_text;
pub use fields::notice_text;
pub use hands::held_text;
pub use html_page::html_text;
pub use players::{
    copied_text, first_player, pair_names, phase_field, player_name, player_number, second_player,
};
pub use points::{
    earned_text, east_west_percent, north_south_percent, percent_text, place_text, total_text,
};
pub use results::{row_contract, row_declarer, row_score, row_tricks, strain_text};
