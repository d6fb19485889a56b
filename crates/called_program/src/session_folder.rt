//! A session that is prepared: the folder that is made for it.

ghost use Rattle.std.specs.Prelude.{◌≡◌, ◌≢◌, ◌⊎◌, []};
ghost use Rattle.std.specs.Io.KnownBytes.{Appends};
ghost use Rattle.program.specs.Status.{IsStatus};
ghost use Rattle.operator_lines.specs.Obstacles.{ToldWhy};

use crate::folder_fault::{FolderFault, FolderPart, status_of_folder_fault};
use kept_sessions::{SourceTexts, texts_of_files};
use named_movements::MovementWord;
use operator_lines::FileFault;
use people_list::{Person, read_people};
use preparing::{Plan, Prepared, prepare};
use server_words::Preparing;
use sign_ins::SignInToken;
use std::fs::{self, OpenFile, OpenOptions};
use std::io::{ErrorKind, Write};
use std::os::unix::fs::OpenOptionsExt;
use std::random::RandomSource;
use std::rt::Files;
use table_terms::Pair;

/// Makes the folder of a session, and answers the status.
pub(crate) fn status_of_preparing<R: Files + RandomSource + AllocGlobal, E: Write>(
    rt: &R,
    preparing: &Preparing<'_>,
    errors: &mut E,
) -> u8
    ensures statuses { IsStatus result }
    ensures understood { result ≢ 2 }
    ensures silent { result ≡ 0 → Appends (E.contents errors.old) (E.contents errors.new) [] }
    ensures memory { result ≡ 4 → ToldWhy result (E.contents errors.old) (E.contents errors.new) }
{
    match prepare_folder(rt, preparing) {
        Ok(()) => 0,
        Err(fault) => status_of_folder_fault(rt.alloc(), fault, preparing, errors),
    }
}

// Makes the folder of a session, once all that goes into it is there.
fn prepare_folder<R: Files + RandomSource + AllocGlobal>(
    rt: &R,
    preparing: &Preparing<'_>,
) -> Result<(), FolderFault> {
    let plan = plan_of(preparing)?;
    let texts = match texts_of_files(rt, preparing.people, preparing.deals) {
        Ok(texts) => texts,
        Err(fault) => return Err(FolderFault::Source(fault)),
    };
    let prepared = prepare_texts(rt, &plan, &texts)?;
    write_folder(rt, preparing.to, &prepared)
}

// What is planned, where the words that name a movement and a pair do.
fn plan_of<'a>(preparing: &Preparing<'a>) -> Result<Plan<'a>, FolderFault> {
    let movement = match preparing.movement {
        None => None,
        Some(word) => match MovementWord::of_text(word) {
            Some(movement) => Some(movement),
            None => return Err(FolderFault::BadMovement),
        },
    };
    let absent = match preparing.absent {
        None => None,
        Some(text) => match text.parse::<Pair>() {
            Ok(pair) => Some(pair),
            Err(_) => return Err(FolderFault::BadAbsent),
        },
    };
    Ok(Plan {
        tables: preparing.tables,
        rounds: preparing.rounds,
        per_set: preparing.per_set,
        movement,
        switched: switched_of(preparing.switched),
        absent,
        budget: preparing.budget,
        title: preparing.title,
        date: preparing.date,
        address: preparing.address,
    })
}

// Where no round is switched, the object says nothing of it: a Howell and a Mitchell without a name have none.
fn switched_of(rounds: u8) -> Option<u8> {
    if rounds == 0 { None } else { Some(rounds) }
}

// What goes into the folder.
fn prepare_texts<R: RandomSource + AllocGlobal>(
    rt: &R,
    plan: &Plan<'_>,
    texts: &SourceTexts,
) -> Result<Prepared, FolderFault> {
    let people = match read_people(rt.alloc(), texts.object.as_slice()) {
        Ok(people) => people,
        Err(fault) => return Err(FolderFault::People(fault)),
    };
    let tokens = tokens_for(rt, people.as_slice())?;
    match prepare(
        rt.alloc(),
        plan,
        people.as_slice(),
        tokens.as_slice(),
        texts.boards.as_slice(),
    ) {
        Ok(prepared) => Ok(prepared),
        Err(fault) => Err(FolderFault::Preparing(fault)),
    }
}

// A token for each person, of random bytes of the system's.
fn tokens_for<R: RandomSource + AllocGlobal>(
    rt: &R,
    people: &[Person],
) -> Result<Vec<SignInToken>, FolderFault> {
    let mut tokens = Vec::new(rt.alloc());
    for _ in people {
        let mut bytes = [0; SignInToken::LETTERS];
        if rt.fill_bytes(&mut bytes[..]).is_err() {
            return Err(FolderFault::NoRandomness);
        }
        let Ok(token) = SignInToken::new(rt.alloc(), &bytes) else {
            return Err(FolderFault::NoMemory);
        };
        if tokens.push(token).is_err() {
            return Err(FolderFault::NoMemory);
        }
    }
    Ok(tokens)
}

// Makes a folder with the three files, and leaves nothing of it where one of them can't be written.
fn write_folder<R: Files + AllocGlobal>(
    rt: &R,
    folder: &str,
    prepared: &Prepared,
) -> Result<(), FolderFault> {
    match fs::create_dir(rt, folder) {
        Ok(()) => {}
        Err(error) if error.kind() == ErrorKind::AlreadyExists => {
            return Err(FolderFault::FolderExists);
        }
        Err(error) => return Err(unwritten(FolderPart::Folder, error.kind())),
    }
    let Ok(paths) = paths_in(rt, folder) else {
        let _left = fs::remove_dir(rt, folder);
        return Err(FolderFault::NoMemory);
    };
    let written = write_files(rt, &paths, prepared);
    if written.is_err() {
        clear_folder(rt, folder, &paths);
    }
    written
}

/// The paths of the files of a folder.
#[derive(Drop)]
struct FolderPaths {
    session: String,
    tokens: String,
    cards: String,
}

fn paths_in<R: AllocGlobal>(rt: &R, folder: &str) -> Result<FolderPaths, FolderFault> {
    Ok(FolderPaths {
        session: format!(in rt.alloc(); "{folder}/session.json")?,
        tokens: format!(in rt.alloc(); "{folder}/tokens.csv")?,
        cards: format!(in rt.alloc(); "{folder}/cards.html")?,
    })
}

// Whoever reads the list of tokens or the cards could sign in as anybody: they are their owner's alone.
fn write_files<R: Files>(
    rt: &R,
    paths: &FolderPaths,
    prepared: &Prepared,
) -> Result<(), FolderFault> {
    write_new(
        rt,
        FolderPart::Session,
        paths.session.as_str(),
        0o644,
        prepared.session.as_bytes(),
    )?;
    write_new(
        rt,
        FolderPart::Tokens,
        paths.tokens.as_str(),
        0o600,
        prepared.sign_ins.as_bytes(),
    )?;
    write_new(
        rt,
        FolderPart::Cards,
        paths.cards.as_str(),
        0o600,
        prepared.cards.as_bytes(),
    )
}

// Writes a file that isn't there yet, and has it on the disk.
fn write_new<R: Files>(
    rt: &R,
    part: FolderPart,
    path: &str,
    mode: u32,
    bytes: &[u8],
) -> Result<(), FolderFault> {
    match OpenOptions::new()
        .write(true)
        .create_new(true)
        .mode(mode)
        .open(rt, path)
    {
        Ok(mut file) => write_and_sync(part, &mut file, bytes),
        Err(error) => Err(unwritten(part, error.kind())),
    }
}

// Writes a file whole, and has it on the disk.
fn write_and_sync<F: Write + OpenFile>(
    part: FolderPart,
    file: &mut F,
    bytes: &[u8],
) -> Result<(), FolderFault> {
    if let Err(error) = file.write_all(bytes) {
        return Err(unwritten(part, error.kind()));
    }
    match file.sync_all() {
        Ok(()) => Ok(()),
        Err(error) => Err(unwritten(part, error.kind())),
    }
}

// What an error of the system is to one who writes a part of the folder.
fn unwritten(part: FolderPart, kind: ErrorKind) -> FolderFault {
    FolderFault::Unwritten(part, FileFault::of_kind(kind))
}

// Removes what was made. What isn't there can't be removed, and what can't be removed is left.
fn clear_folder<R: Files>(rt: &R, folder: &str, paths: &FolderPaths) {
    let _session = fs::remove_file(rt, paths.session.as_str());
    let _tokens = fs::remove_file(rt, paths.tokens.as_str());
    let _cards = fs::remove_file(rt, paths.cards.as_str());
    let _folder = fs::remove_dir(rt, folder);
}
