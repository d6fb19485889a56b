//! What a session comes to, as USEBIO 1.2.
#![tactic(auto)]

mod usebio_document;

pub use usebio_document::usebio_text;
