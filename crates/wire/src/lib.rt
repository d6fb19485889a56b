//! A results server's messages, from a script and on a connection: the request that a message is, read from its JSON
//! text, and the texts of receipts, audits and faults.
#![tactic(auto)]

mod audit_range;
mod audit_reading;
mod audit_writing;
mod connection_fault;
mod dialect;
mod fault_writing;
mod greeting_reading;
pub mod laws;
mod list_reading;
mod query_reading;
mod reading;
mod receipt_writing;
mod request;
mod source;
mod token;

pub use audit_range::AuditRange;
pub use audit_writing::{audit_refusal_text, audit_row_text, audit_text};
pub use connection_fault::ConnectionFault;
pub use fault_writing::{connection_fault_text, fault_line, fault_text};
pub use reading::{MOST_MESSAGE_BYTES, read_connection_request, read_request, read_script_request};
pub use receipt_writing::receipt_text;
pub use request::{Request, RequestBody, ScriptRequest, UserRequest};
pub use source::Source;
pub use token::Token;
