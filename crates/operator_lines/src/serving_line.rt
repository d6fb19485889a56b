//! The line of a server that serves.

ghost use Rattle.std.specs.Prelude.{◌≡◌, ◌⊎◌, [], IfOk, string_bytes};
ghost use Rattle.std.specs.Io.KnownBytes.{Appends};
ghost use Rattle.operator_lines.specs.Telling.{TellsLine};
ghost use Rattle.operator_lines.specs.Serving.{serving_line, kept_text, journal_text, TellsInClear, TellsServing};

use crate::telling::tell;
use std::alloc::{AllocError, Global};
use std::io::Write;
use std::net::{IpAddr, SocketAddr};

/// How a session is served.
#[derive(Clone, Copy)]
pub struct ServingLine<'a> {
    /// The address and the port at which clients come.
    pub address: SocketAddr,
    /// How many tables the session has.
    pub tables: u8,
    /// How many displays serve.
    pub displays: u8,
    /// How many workers solve.
    pub workers: u8,
    /// What keeps the session.
    pub kept: KeptIn<'a>,
}

/// What keeps a session.
#[derive(Clone, Copy)]
pub enum KeptIn<'a> {
    /// Nothing: what is entered is gone when the server ends.
    Nothing,
    /// The journal of this file, which has so many entries.
    Journal(&'a str, usize),
}

/// Tells how a session is served, and before that, where other computers can come, what that means. Where there is no memory for
/// the line, or it can't be written, the session is served all the same.
pub fn tell_serving<E: Write>(alloc: Global, serving: &ServingLine<'_>, errors: &mut E)
    ensures { TellsServing serving.now (E.contents errors.old) (E.contents errors.new) }
{
    tell_in_clear(serving.address.ip(), errors);
    tell_line(alloc, serving, errors);
}

// Tells what it means that other computers can come, if they can.
fn tell_in_clear<E: Write>(address: IpAddr, errors: &mut E)
    ensures { TellsInClear address (E.contents errors.old) (E.contents errors.new) }
{
    if !address.is_loopback() {
        tell(
            errors,
            "bridge_server: other computers can come: without TLS in front of it tokens travel in clear\n",
        );
    }
}

fn tell_line<E: Write>(alloc: Global, serving: &ServingLine<'_>, errors: &mut E)
    ensures { TellsLine (E.contents errors.old) (E.contents errors.new) (serving_line serving.now)
        ⊎ Appends (E.contents errors.old) (E.contents errors.new) [] }
{
    if let Ok(line) = serving_line(alloc, serving) {
        tell(errors, line.as_str());
    }
}

#[tactic(auto, unfolding(crate::specs::Serving::serving_line))]
fn serving_line(alloc: Global, serving: &ServingLine<'_>) -> Result<String, AllocError>
    ensures { IfOk result (λ line. string_bytes line ≡ serving_line serving.now) }
{
    let (address, tables) = (serving.address, serving.tables);
    let (displays, workers) = (serving.displays, serving.workers);
    let kept = kept_text(alloc, &serving.kept)?;
    format!(in alloc;
        "bridge_server: serves at {address}: {tables} tables, {displays} displays, {workers} workers, {kept}\n"
    )
}

// What is told of what keeps the session.
fn kept_text(alloc: Global, kept: &KeptIn<'_>) -> Result<String, AllocError>
    ensures { IfOk result (λ text. string_bytes text ≡ kept_text kept.now) }
{
    match kept {
        KeptIn::Nothing => String::from_str(alloc, "no journal"),
        KeptIn::Journal(path, version) => journal_text(alloc, path, *version),
    }
}

fn journal_text(alloc: Global, path: &str, version: usize) -> Result<String, AllocError>
    ensures { IfOk result (λ text. string_bytes text ≡ journal_text path.now version) }
{
    format!(in alloc; "journal {path} at version {version}")
}
