//! The words that the program is called with, and how it ends where nothing is run by them.

ghost use Rattle.std.specs.Prelude.{◌≡◌, ◌≢◌, ◌⊎◌, []};
ghost use Rattle.std.specs.Io.KnownBytes.{Appends};
ghost use Rattle.clap.specs.Words.{kind_of};

use clap::Error;
use clap::error::ErrorKind;
use script_lines::write_text;
use std::alloc::Global;
use std::io::Write;

/// The status after words by which nothing is run: 2 after bad ones, which `clap` explains, 0 after a request for help,
/// which it gives, 3 where help can't be written, and 4 where there is no memory.
pub fn status_of_words<W: Write, E: Write>(
    alloc: Global,
    error: &Error,
    writer: &mut W,
    errors: &mut E,
) -> u8
    ensures statuses { (result ≡ 0) ⊎ (result ≡ 2) ⊎ (result ≡ 3) ⊎ (result ≡ 4) }
    ensures unwritten { result ≡ 2 → Appends (W.contents writer.old) (W.contents writer.new) [] }
    ensures silent { result ≢ 2 → Appends (E.contents errors.old) (E.contents errors.new) [] }
    ensures memory { kind_of error.now ≡ ErrorKind.OutOfMemory → result ≡ 4 }
    ensures help { kind_of error.now ≡ ErrorKind.DisplayHelp → result ≢ 2 }
    ensures version { kind_of error.now ≡ ErrorKind.DisplayVersion → result ≢ 2 }
    ensures mistaken { kind_of error.now ≢ ErrorKind.DisplayHelp → kind_of error.now ≢ ErrorKind.DisplayVersion →
        ((result ≡ 2) ⊎ (result ≡ 4)) × Appends (W.contents writer.old) (W.contents writer.new) [] }
{
    match error.kind() {
        ErrorKind::OutOfMemory => 4,
        ErrorKind::DisplayHelp | ErrorKind::DisplayVersion => status_of_help(alloc, error, writer),
        _ => status_of_bad_words(alloc, error, errors),
    }
}

// Gives the help that was asked for.
fn status_of_help<W: Write>(alloc: Global, error: &Error, writer: &mut W) -> u8
    ensures { (result ≡ 0) ⊎ (result ≡ 3) ⊎ (result ≡ 4) }
{
    let Ok(text) = format!(in alloc; "{error}") else {
        return 4;
    };
    match write_text(writer, text.as_bytes()) {
        Ok(()) => 0,
        Err(_) => 3,
    }
}

// Says what is wrong with the words.
fn status_of_bad_words<E: Write>(alloc: Global, error: &Error, errors: &mut E) -> u8
    ensures statuses { (result ≡ 2) ⊎ (result ≡ 4) }
    ensures silent { result ≢ 2 → Appends (E.contents errors.old) (E.contents errors.new) [] }
{
    let Ok(text) = format!(in alloc; "{error}") else {
        return 4;
    };
    // Where it can't be written, the status still tells.
    let _unwritten = write_text(errors, text.as_bytes());
    2
}
