//! The names in a folder.

ghost use Rattle.std.specs.Prelude.{◌≡◌, All, string_bytes, IfOk, OnOk, IsTrue};
ghost use Rattle.page_files.specs.PageFiles.{is_plain_name};

use crate::page_fault::PageFault;
use crate::page_reading::MOST_PAGE_FILES;
use std::alloc::Global;
use std::fs;
use std::rt::Files;

/// The names in a folder that may stand in a page.
pub(crate) fn names_of<R: Files + AllocGlobal>(rt: &R, path: &str) -> Result<Vec<String>, PageFault>
    ensures { IfOk result (λ names. All (λ name. IsTrue (is_plain_name (string_bytes name))) names.items) }
{
    let Ok(entries) = fs::read_dir(&rt, path) else {
        return Err(unread(rt.alloc(), path));
    };
    let mut names = Vec::new(rt.alloc());
    for entry in entries {
        let Ok(entry) = entry else {
            return Err(unread(rt.alloc(), path));
        };
        add_name(rt.alloc(), entry.file_name(), &mut names)?;
    }
    Ok(names)
}

// Adds a name, unless it may not stand in a page.
fn add_name(alloc: Global, name: &str, names: &mut Vec<String>) -> Result<(), PageFault>
    requires { All (λ name. IsTrue (is_plain_name (string_bytes name))) names.old.items }
    ensures { OnOk result (All (λ name. IsTrue (is_plain_name (string_bytes name))) names.new.items) }
{
    if !is_plain_name(name.as_bytes()) {
        return Ok(());
    }
    if names.len() >= MOST_PAGE_FILES {
        return Err(PageFault::TooMany);
    }
    match names.push(String::from_str(alloc, name)?) {
        Ok(()) => Ok(()),
        Err(_) => Err(PageFault::OutOfMemory),
    }
}

// Whether a name may stand in a page.
fn is_plain_name(name: &[u8]) -> bool
    ensures { result ≡ is_plain_name name.now }
{
    match name {
        [] => false,
        [first, ..] => *first != b'.' && !name.contains(&b'/'),
    }
}

/// The fault of what can't be read.
pub(crate) fn unread(alloc: Global, path: &str) -> PageFault {
    match String::from_str(alloc, path) {
        Ok(path) => PageFault::Unread(path),
        Err(_) => PageFault::OutOfMemory,
    }
}
