//! What is opened before a session is: what is handed out at its port beside it, and its log.

ghost use Rattle.std.specs.Prelude.{◌≡◌, ◌⊎◌};
ghost use Rattle.operator_lines.specs.Obstacles.{ToldWhy};

use event_log::{LogFiles, SharedLog};
use operator_lines::{FileFault, MemoryFor, Obstacle, status_of_obstacle};
use page_answers::PageAnswers;
use page_files::{PageFault, read_page};
use std::alloc::Global;
use std::hash::RandomState;
use std::io::Write;
use std::random::RandomSource;
use std::rt::Files;

/// What a session is served by beside its files: what is handed out, secret keys, and a log.
#[derive(Clone, Copy)]
pub(crate) struct ServingMeans<'a> {
    /// The page, if there is one.
    pub(crate) page: Option<&'a PageAnswers>,
    /// Keys for the names of a request's fields, which its sender chooses.
    pub(crate) keys: RandomState,
    /// The log, if there is one.
    pub(crate) log: Option<&'a SharedLog>,
}

/// The same, as it was opened.
#[derive(Drop)]
pub(crate) struct OpenedMeans {
    answers: Option<PageAnswers>,
    keys: RandomState,
    log: Option<SharedLog>,
}

impl OpenedMeans {
    /// They, lent.
    pub(crate) fn lent(&self) -> ServingMeans<'_> {
        ServingMeans {
            page: self.answers.as_ref(),
            keys: self.keys,
            log: self.log.as_ref(),
        }
    }
}

/// Why nothing is handed out or logged.
#[derive(Drop)]
pub(crate) enum OpeningFault<'a> {
    Page(PageFault),
    /// The log of this name can't be opened.
    Log(&'a str, FileFault),
    /// The system gives no random bytes.
    NoRandomness,
}

/// The page of a folder, if one is named, and the log of a name, if there is one, and keys in any case.
pub(crate) fn open_means<'a, R: Files + RandomSource + LogFiles + AllocGlobal>(
    rt: &R,
    folder: Option<&str>,
    log: Option<&'a str>,
) -> Result<OpenedMeans, OpeningFault<'a>> {
    let Ok(keys) = RandomState::new(rt) else {
        return Err(OpeningFault::NoRandomness);
    };
    let answers = match folder {
        Some(folder) => Some(answers_of(rt, folder)?),
        None => None,
    };
    let log = match log {
        Some(name) => Some(log_of(rt, name)?),
        None => None,
    };
    Ok(OpenedMeans { answers, keys, log })
}

// The log of a name.
fn log_of<'a, R: LogFiles + AllocGlobal>(
    rt: &R,
    name: &'a str,
) -> Result<SharedLog, OpeningFault<'a>> {
    match rt.open_log(rt.alloc(), name) {
        Ok(log) => Ok(log),
        Err(error) => Err(OpeningFault::Log(name, FileFault::of_kind(error.kind()))),
    }
}

// The answers from the page of a folder.
fn answers_of<'a, R: Files + AllocGlobal>(
    rt: &R,
    folder: &str,
) -> Result<PageAnswers, OpeningFault<'a>> {
    let files = match read_page(rt, folder) {
        Ok(files) => files,
        Err(fault) => return Err(OpeningFault::Page(fault)),
    };
    match PageAnswers::new(rt.alloc(), files) {
        Ok(answers) => Ok(answers),
        Err(_) => Err(OpeningFault::Page(PageFault::OutOfMemory)),
    }
}

/// The status where a page or a log isn't opened. What is wrong with it is named.
pub(crate) fn status_of_opening_fault<E: Write>(
    alloc: Global,
    fault: &OpeningFault<'_>,
    errors: &mut E,
) -> u8
    ensures statuses { (result ≡ 1) ⊎ ((result ≡ 3) ⊎ (result ≡ 4)) }
    ensures why { (result ≡ 3) ⊎ (result ≡ 4) → ToldWhy result (E.contents errors.old) (E.contents errors.new) }
{
    match fault {
        OpeningFault::NoRandomness => { status_of_obstacle(alloc, &Obstacle::NoRandomness, errors) }
        OpeningFault::Log(name, why) => {
            status_of_obstacle(alloc, &Obstacle::Unwritten(name, *why), errors)
        }
        OpeningFault::Page(PageFault::OutOfMemory) => {
            status_of_obstacle(alloc, &Obstacle::OutOfMemory(MemoryFor::Page), errors)
        }
        OpeningFault::Page(fault) => {
            // Where it can't be written, the status still tells.
            let _unwritten = writeln!(errors, "bridge_server: {fault}");
            1
        }
    }
}
