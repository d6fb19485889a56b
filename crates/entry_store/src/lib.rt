//! What keeps the entries of a session over a crash: a trait, and the store of a session that keeps none.
#![tactic(auto)]

mod entry_store;
mod keep_fault;
mod no_store;

pub use entry_store::EntryStore;
pub use keep_fault::KeepFault;
pub use no_store::NoStore;
