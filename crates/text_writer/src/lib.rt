//! Texts that are written part by part, whatever form they are of; a refusal of memory is kept until the end.
#![tactic(auto)]

mod listing;
mod markup;
mod text_writer;

pub use listing::{Written, written_list};
pub use markup::escaped;
pub use text_writer::{TextWriter, bytes_of, hundredths_text};
