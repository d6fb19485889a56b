//! The files of a page, read from a folder into memory once.
#![tactic(auto)]

mod names;
mod page_fault;
mod page_file;
mod page_reading;
mod reading;
#[cfg(test)]
mod tests;

pub use page_fault::PageFault;
pub use page_file::PageFile;
pub use page_reading::{MOST_PAGE_BYTES, MOST_PAGE_FILES};
pub use reading::read_page;
