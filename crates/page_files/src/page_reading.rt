ghost use Rattle.std.specs.Prelude.{◌≡◌, ◌≤◌, length, string_bytes, IfOk, OnOk};
ghost use Rattle.page_files.specs.PageFiles.{is_index, IsNameOfFile, IsPage};
ghost use Rattle.page_files.specs.PageReading.{IsReading, room_of};

use crate::page_fault::PageFault;
use crate::page_file::PageFile;
use std::alloc::Global;

/// How many bytes the files of a page have at most, together.
pub const MOST_PAGE_BYTES: usize = 16_777_216;

/// How many files a page has at most.
pub const MOST_PAGE_FILES: usize = 1_024;

// The name of what is answered where no file is named.
const INDEX: &str = "index.html";

/// The files that were read so far.
#[derive(Drop)]
pub(crate) struct PageReading {
    files: Vec<PageFile>,
    left: usize,
}

impl PageReading {
    /// No file yet.
    pub(crate) fn new(alloc: Global) -> PageReading
        ensures { IsReading result }
    {
        PageReading {
            files: Vec::new(alloc),
            left: MOST_PAGE_BYTES,
        }
    }

    /// For how many bytes there is still room.
    pub(crate) fn left(&self) -> usize
        ensures { result ≡ room_of self.now }
    {
        self.left
    }

    /// Adds a file.
    pub(crate) fn add(&mut self, file: PageFile) -> Result<(), PageFault>
        requires reading { IsReading self.old }
        requires named { IsNameOfFile (string_bytes file.name) }
        requires room { length file.bytes ≤ room_of self.old }
        ensures { OnOk result (IsReading self.new) }
    {
        if self.files.as_slice().len() >= MOST_PAGE_FILES {
            return Err(PageFault::TooMany);
        }
        let length = file.bytes.len();
        if self.files.push(file).is_err() {
            return Err(PageFault::OutOfMemory);
        }
        self.left -= length;
        Ok(())
    }

    /// All files, once each was read.
    pub(crate) fn whole(self) -> Result<Vec<PageFile>, PageFault>
        requires { IsReading self }
        ensures { IfOk result (λ files. IsPage files.items) }
    {
        if self.files.iter().any(|file| is_index(file)) {
            Ok(self.files)
        } else {
            Err(PageFault::NoIndex)
        }
    }
}

fn is_index(file: &PageFile) -> bool
    ensures { result ≡ is_index file.now }
{
    file.name.as_str() == INDEX
}
