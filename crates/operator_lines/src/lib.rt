//! What the program tells whoever runs it, on standard error: what kept it from its work, and how it serves.
#![tactic(auto)]

mod file_fault;
mod named_line;
mod obstacle;
mod port_fault;
mod serving_line;
mod telling;
#[cfg(test)]
mod tests;

pub use file_fault::FileFault;
pub use obstacle::{MemoryFor, Obstacle, status_of_obstacle};
pub use port_fault::PortFault;
pub use serving_line::{KeptIn, ServingLine, tell_serving};
pub use telling::tell;
