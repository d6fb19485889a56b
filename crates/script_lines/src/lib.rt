//! Lines read from any reader, and texts written to any writer, so that it is known what was read and written before a
//! fault, and that over memory there is none.
//!
//! Beside std's `BufRead::lines` and `Write::write_all` there are two differences: a call that is interrupted has
//! failed and isn't tried again, and what was read or written before a fault is stated.
#![tactic(auto)]

pub mod laws;
mod line_end;
mod reading;
mod short_line;
mod sink;
mod source;
mod writing;

pub use line_end::LineEnd;
pub use reading::{ReadFault, read_line};
pub use short_line::read_short_line;
pub use sink::{SinkFault, TextSink};
pub use source::{ByteSource, SourceFault};
pub use writing::{WriteFault, write_text};
