//! A reader that fails, for tests.
#![tactic(auto)]

mod devices;

pub use devices::FailingReader;
