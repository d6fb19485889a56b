//! Why a file isn't read or written.

ghost use Rattle.std.specs.Prelude.{◌≡◌, ◌≢◌};
ghost use Rattle.operator_lines.specs.declared.file_fault.FileFault.TheVariants.{TooLong};
ghost use Rattle.operator_lines.specs.Faults.{file_fault_text};

use std::io::ErrorKind;

/// Why a file isn't read or written.
#[derive(Clone, Copy, Debug, PartialEq, Eq)]
pub enum FileFault {
    /// There is no such file, or a folder on the way to it isn't there.
    Missing,
    /// The system doesn't allow it.
    Forbidden,
    /// It is a folder.
    Folder,
    /// It has more bytes than are read.
    TooLong,
    /// The disk is full, or no more of it is allowed.
    Full,
    /// Anything else that the system says.
    Failed,
}

impl FileFault {
    /// What an error of the system comes to.
    pub fn of_kind(kind: ErrorKind) -> FileFault
        ensures { result ≢ TooLong }
    {
        match kind {
            ErrorKind::NotFound | ErrorKind::NotADirectory => FileFault::Missing,
            ErrorKind::PermissionDenied | ErrorKind::ReadOnlyFilesystem => FileFault::Forbidden,
            ErrorKind::IsADirectory => FileFault::Folder,
            ErrorKind::StorageFull | ErrorKind::QuotaExceeded => FileFault::Full,
            _ => FileFault::Failed,
        }
    }

    // What is told of it.
    pub(crate) fn text(self) -> &'static str
        ensures { result.now ≡ file_fault_text self }
    {
        match self {
            FileFault::Missing => "there is no such file or folder",
            FileFault::Forbidden => "the system doesn't allow it",
            FileFault::Folder => "it is a folder",
            FileFault::TooLong => "it is too long",
            FileFault::Full => "there is no room on the disk",
            FileFault::Failed => "the system can't do it",
        }
    }
}
