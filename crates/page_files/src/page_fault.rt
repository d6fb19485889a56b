use std::alloc::AllocError;
use thiserror::Error;

/// Why the files of a page aren't read.
#[derive(Debug, Drop, Error)]
pub enum PageFault {
    #[error("NoFolder (there is no folder of this name, or it can't be read)")]
    NoFolder,
    /// What is told is its path.
    #[error("Unread: {0} (it can't be read)")]
    Unread(String),
    #[error("NotAFile: {0} (a page has files, and folders of files, and nothing else: no links, and no folders below those)")]
    NotAFile(String),
    #[error("TooLarge (a page has at most 16777216 bytes)")]
    TooLarge,
    #[error("TooMany (a page has at most 1024 files, and a folder of it as many names)")]
    TooMany,
    #[error("NoIndex (the folder has no index.html)")]
    NoIndex,
    #[error("OutOfMemory")]
    OutOfMemory,
}

impl From<AllocError> for PageFault {
    fn from(_: AllocError) -> PageFault {
        PageFault::OutOfMemory
    }
}
