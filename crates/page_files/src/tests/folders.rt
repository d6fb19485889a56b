//! Folders of the system's own.

use crate::{MOST_PAGE_BYTES, PageFault, PageFile, read_page};
use std::alloc::Global;
use std::os::unix::fs::symlink;
use std::rt::Files;
use std::test::Fail;
use std::{fs, io};

// Files of four folders, each with what stands in it.
static FILES: &[(&str, &str)] = &[
    ("out/pages/whole/index.html", "<!doctype html>"),
    ("out/pages/whole/app.js", ""),
    ("out/pages/whole/views/board.js", "export {};"),
    ("out/pages/whole/.hidden", "a secret"),
    ("out/pages/whole/.git/config", "another"),
    ("out/pages/bare/app.js", "export {};"),
    ("out/pages/deep/index.html", ""),
    ("out/pages/deep/a/b/c.js", ""),
    ("out/pages/linked/index.html", ""),
];

static FOLDERS: &[&str] = &[
    "out/pages/whole/views",
    "out/pages/whole/.git",
    "out/pages/bare",
    "out/pages/deep/a/b",
    "out/pages/linked",
    "out/pages/large",
];

// What comes of each folder.
static READ: &[(&str, &str)] = &[
    ("out/pages/whole", "3 files"),
    ("out/pages/whole/", "3 files"),
    ("out/pages/nowhere", "NoFolder"),
    ("out/pages/whole/index.html", "NoFolder"),
    ("out/pages/bare", "NoIndex"),
    ("out/pages/deep", "NotAFile: out/pages/deep/a/b"),
    ("out/pages/linked", "NotAFile: out/pages/linked/away"),
];

fn write_folders<R: Files>(rt: &R) -> io::Result<()> {
    for folder in FOLDERS {
        fs::create_dir_all(rt, *folder)?;
    }
    for (path, text) in FILES {
        fs::write(rt, *path, *text)?;
    }
    // It is there already where the test ran before.
    let _there = symlink(rt, "/etc/passwd", "out/pages/linked/away");
    Ok(())
}

// What came of a folder: how many files were read, or the fault up to what explains it.
fn told(alloc: Global, read: &Result<Vec<PageFile>, PageFault>) -> Result<String, Fail> {
    match read {
        Ok(files) => Ok(format!(in alloc; "{} files", files.len())?),
        Err(fault) => {
            let text = format!(in alloc; "{fault}")?;
            match text.as_str().split_once(" (") {
                Some((word, _)) => Ok(String::from_str(alloc, word)?),
                None => Ok(text),
            }
        }
    }
}

fn bytes_of<'p>(files: &'p [PageFile], name: &str) -> Option<&'p [u8]> {
    for file in files {
        if file.name.as_str() == name {
            return Some(file.bytes.as_slice());
        }
    }
    None
}

#[test]
fn a_folder_is_read_or_its_fault_is_told(rt: HostRuntime) -> Result<(), Fail> {
    write_folders(&rt)?;
    for (folder, want) in READ {
        let read = read_page(&rt, folder);
        let got = told(rt.alloc(), &read)?;
        assert_eq!(&rt; got.as_str(), *want, "of {folder}");
    }
    Ok(())
}

#[test]
fn a_file_has_its_path_below_the_folder_as_its_name(rt: HostRuntime) -> Result<(), Fail> {
    write_folders(&rt)?;
    let Ok(files) = read_page(&rt, "out/pages/whole") else {
        panic!(&rt; "the folder isn't read");
    };
    assert!(&rt; bytes_of(files.as_slice(), "index.html") == Some(b"<!doctype html>".as_slice()));
    assert!(&rt; bytes_of(files.as_slice(), "app.js") == Some(b"".as_slice()));
    assert!(&rt; bytes_of(files.as_slice(), "views/board.js") == Some(b"export {};".as_slice()));
    Ok(())
}

// Writes a page whose index has so many bytes.
fn write_large<R: Files + AllocGlobal>(rt: &R, length: usize) -> Result<(), Fail> {
    let mut text = Vec::new(rt.alloc());
    text.resize(length, b' ')?;
    fs::write(rt, "out/pages/large/index.html", text.as_slice())?;
    Ok(())
}

#[test]
fn a_page_has_at_most_so_many_bytes(rt: HostRuntime) -> Result<(), Fail> {
    write_folders(&rt)?;
    for (length, want) in [
        (MOST_PAGE_BYTES, "1 files"),
        (MOST_PAGE_BYTES + 1, "TooLarge"),
    ] {
        write_large(&rt, length)?;
        let read = read_page(&rt, "out/pages/large");
        let got = told(rt.alloc(), &read)?;
        assert_eq!(&rt; got.as_str(), want, "with {length} bytes");
    }
    Ok(())
}
