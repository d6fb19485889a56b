//! A session as it is kept: what a connection and a script want of one who keeps it, whatever it is made of, and the
//! plain keeper, a book beside the view that answers queries at the book's version.
#![tactic(auto)]

mod command_keeper;
mod keeper;
mod plain_keeper;
mod receipt;
mod submit_fault;

pub use command_keeper::CommandKeeper;
pub use keeper::Keeper;
pub use plain_keeper::PlainKeeper;
pub use receipt::{AuditReceipt, BatchReceipt};
pub use submit_fault::SubmitFault;
