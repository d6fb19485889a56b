//! The program as it is called: what each word of the results server does, over the streams that it is given, and the status with which
//! it ends.
#![tactic(auto)]

mod auditing;
mod calling;
mod checking;
mod copying;
mod folder_fault;
mod reporting;
mod serving;
mod serving_announcement;
mod serving_fault;
mod serving_means;
mod session_folder;

pub use calling::{run_program, run_words};
