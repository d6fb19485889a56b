//! A page's folder, read once.

ghost use Rattle.std.specs.Prelude.{◌≡◌, ◌≤◌, All, length, string_bytes, IfOk, IfSome, OnOk, IsTrue};
ghost use Rattle.page_files.specs.PageFiles.{is_plain_name, IsNameOfFile, IsPage};
ghost use Rattle.page_files.specs.PageReading.{IsReading};

use crate::names::{names_of, unread};
use crate::page_fault::PageFault;
use crate::page_file::PageFile;
use crate::page_reading::{MOST_PAGE_BYTES, PageReading};
use bytes::Bytes;
use std::alloc::Global;
use std::fs;
use std::io::{ErrorKind, Read};
use std::rt::Files;

/// The files of a folder, and of the folders in it, as they are now. Names that begin with a dot are left out.
pub fn read_page<R: Files + AllocGlobal>(rt: &R, folder: &str) -> Result<Vec<PageFile>, PageFault>
    ensures { IfOk result (λ files. IsPage files.items) }
{
    if !is_folder(rt, folder) {
        return Err(PageFault::NoFolder);
    }
    let names = names_of(rt, folder)?;
    let mut reading = PageReading::new(rt.alloc());
    read_names(rt, folder, names.as_slice(), &mut reading)?;
    reading.whole()
}

fn is_folder<R: Files>(rt: &R, path: &str) -> bool {
    match fs::metadata(rt, path) {
        Ok(found) => found.is_dir(),
        Err(_) => false,
    }
}

// What a name stands for.
#[derive(Clone, Copy, PartialEq, Eq)]
enum Kind {
    File,
    Folder,
    Other,
}

// What is at a path, if that can be told. A link isn't followed: what it leads to may lie outside.
fn kind_at<R: Files>(rt: &R, path: &str) -> Option<Kind> {
    match fs::symlink_metadata(rt, path) {
        Ok(found) if found.is_file() => Some(Kind::File),
        Ok(found) if found.is_dir() => Some(Kind::Folder),
        Ok(_) => Some(Kind::Other),
        Err(_) => None,
    }
}

// Reads what the names of the page's folder stand for.
fn read_names<R: Files + AllocGlobal>(
    rt: &R,
    folder: &str,
    names: &[String],
    reading: &mut PageReading,
) -> Result<(), PageFault>
    requires plain { All (λ name. IsTrue (is_plain_name (string_bytes name))) names.now }
    requires begun { IsReading reading.old }
    ensures { OnOk result (IsReading reading.new) }
{
    for name in names {
        read_name(rt, folder, name.as_str(), reading)?;
    }
    Ok(())
}

// Reads what a name of the page's folder stands for.
fn read_name<R: Files + AllocGlobal>(
    rt: &R,
    folder: &str,
    name: &str,
    reading: &mut PageReading,
) -> Result<(), PageFault>
    requires plain { IsTrue (is_plain_name name.now) }
    requires begun { IsReading reading.old }
    ensures { OnOk result (IsReading reading.new) }
{
    let path = format!(in rt.alloc(); "{folder}/{name}")?;
    match kind_at(rt, path.as_str()) {
        Some(Kind::File) => {
            let name = String::from_str(rt.alloc(), name)?;
            read_file(rt, path.as_str(), name, reading)
        }
        Some(Kind::Folder) => read_below(rt, path.as_str(), name, reading),
        Some(Kind::Other) => Err(PageFault::NotAFile(path)),
        None => Err(PageFault::Unread(path)),
    }
}

// Reads the files of a folder in the page's folder.
fn read_below<R: Files + AllocGlobal>(
    rt: &R,
    path: &str,
    folder: &str,
    reading: &mut PageReading,
) -> Result<(), PageFault>
    requires plain { IsTrue (is_plain_name folder.now) }
    requires begun { IsReading reading.old }
    ensures { OnOk result (IsReading reading.new) }
{
    let names = names_of(rt, path)?;
    read_names_below(rt, path, folder, names.as_slice(), reading)
}

// Reads the files that the names of a folder in the page's folder stand for.
fn read_names_below<R: Files + AllocGlobal>(
    rt: &R,
    path: &str,
    folder: &str,
    names: &[String],
    reading: &mut PageReading,
) -> Result<(), PageFault>
    requires plain_folder { IsTrue (is_plain_name folder.now) }
    requires plain { All (λ name. IsTrue (is_plain_name (string_bytes name))) names.now }
    requires begun { IsReading reading.old }
    ensures { OnOk result (IsReading reading.new) }
{
    for name in names {
        read_name_below(rt, path, folder, name.as_str(), reading)?;
    }
    Ok(())
}

// Reads the file that a name of a folder in the page's folder stands for.
fn read_name_below<R: Files + AllocGlobal>(
    rt: &R,
    path: &str,
    folder: &str,
    name: &str,
    reading: &mut PageReading,
) -> Result<(), PageFault>
    requires plain_folder { IsTrue (is_plain_name folder.now) }
    requires plain { IsTrue (is_plain_name name.now) }
    requires begun { IsReading reading.old }
    ensures { OnOk result (IsReading reading.new) }
{
    let path = format!(in rt.alloc(); "{path}/{name}")?;
    match kind_at(rt, path.as_str()) {
        Some(Kind::File) => {
            let name = format!(in rt.alloc(); "{folder}/{name}")?;
            read_file(rt, path.as_str(), name, reading)
        }
        Some(Kind::Folder | Kind::Other) => Err(PageFault::NotAFile(path)),
        None => Err(PageFault::Unread(path)),
    }
}

// Reads the file at a path, whose name in the page this is.
fn read_file<R: Files + AllocGlobal>(
    rt: &R,
    path: &str,
    name: String,
    reading: &mut PageReading,
) -> Result<(), PageFault>
    requires named { IsNameOfFile (string_bytes name) }
    requires begun { IsReading reading.old }
    ensures { OnOk result (IsReading reading.new) }
{
    let Ok(file) = fs::open(rt, path) else {
        return Err(unread(rt.alloc(), path));
    };
    match read_whole(rt.alloc(), file, reading.left()) {
        Ok(bytes) => match Bytes::from_vec(bytes) {
            Ok(bytes) => reading.add(PageFile { name, bytes }),
            Err(_) => Err(PageFault::OutOfMemory),
        },
        Err(ReadFault::Unread) => Err(unread(rt.alloc(), path)),
        Err(ReadFault::TooLarge) => Err(PageFault::TooLarge),
        Err(ReadFault::OutOfMemory) => Err(PageFault::OutOfMemory),
    }
}

// Why a file isn't read.
#[derive(Clone, Copy, Debug, PartialEq, Eq)]
pub(crate) enum ReadFault {
    Unread,
    TooLarge,
    OutOfMemory,
}

/// All bytes of a reader, unless there are more than so many.
pub(crate) fn read_whole<I: Read + Drop>(
    alloc: Global,
    reader: I,
    most: usize,
) -> Result<Vec<u8>, ReadFault>
    requires { most ≤ MOST_PAGE_BYTES }
    ensures whole { IfOk result (λ bytes. IfSome (I.remaining reader) (λ all. bytes.items ≡ all)) }
    ensures few { IfOk result (λ bytes. length bytes.items ≤ most) }
{
    let mut bytes = Vec::new(alloc);
    match reader.take(most as u64 + 1).read_to_end(&mut bytes) {
        Ok(_) if bytes.len() <= most => Ok(bytes),
        Ok(_) => Err(ReadFault::TooLarge),
        Err(error) if error.kind() == ErrorKind::OutOfMemory => Err(ReadFault::OutOfMemory),
        Err(_) => Err(ReadFault::Unread),
    }
}
