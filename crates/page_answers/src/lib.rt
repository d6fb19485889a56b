//! What is answered to a request for a file of the page.
#![tactic(auto)]

mod codings;
mod content_type;
mod fixed_answers;
mod guards;
pub mod laws;
mod page_answers;
mod page_service;
mod tagged_file;
mod told_tags;

pub use page_answers::PageAnswers;
pub use page_service::PageService;
