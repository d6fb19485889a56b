//! A journal in memory, and over disks in memory.

use super::entries::{held, solved};
use entry_store::{EntryStore, KeepFault};
use journal_store::{TakeFault, create, read_kept, take_up};
use kept_entries::{read_publications, row_texts};
use row_journal::{FoundJournal, RowJournal, fault_of_file, fault_of_rows};
use session_commands::Entry;
use sqlite::{Alter, Connection, Error, FileStore, Leftover, MemStore, Options};
use sqlite_disk::{Crash, Disk, Files, Fuse, Memory};
use std::alloc::{AllocError, Global};
use std::test::Fail;
use std::thread::Threads;

// The helpers have no clause, so that a test's proof does not carry what its calls say; and each lets a database go by a call, since any
// other way out takes it apart field by field.

/// A journal with no entry.
fn new_journal(alloc: Global) -> Result<RowJournal<MemStore>, Error> {
    let mut conn = Connection::open_in_memory(alloc)?;
    match create(&mut conn, "{}", b"boards") {
        Ok(()) => Ok(RowJournal::new(alloc, conn, 1, 0)),
        Err(error) => {
            drop(conn);
            Err(error)
        }
    }
}

/// Whether a publication is kept.
fn is_kept(journal: &mut RowJournal<MemStore>, entries: &[Entry]) -> bool {
    if entries.is_empty() || !journal.is_open() {
        return false;
    }
    journal.keep(entries).is_ok()
}

/// The rows of what is read of the journal, or why it isn't read.
fn read_again<R: Threads + Sync>(
    rt: &R,
    alloc: Global,
    journal: RowJournal<MemStore>,
) -> Result<String, AllocError> {
    let mut conn = journal.into_connection();
    let told = read_rows(rt, alloc, &mut conn);
    drop(conn);
    told
}

fn read_rows<R: Threads + Sync>(
    rt: &R,
    alloc: Global,
    conn: &mut Connection<MemStore>,
) -> Result<String, AllocError> {
    if !conn.is_autocommit() {
        return String::from_str(alloc, "in a transaction");
    }
    match read_kept(alloc, conn) {
        Ok((_session, rows)) => match read_publications(rt, alloc, rows.as_slice(), 1_000_000, 2) {
            Ok(published) => lines(alloc, published.as_slice()),
            Err(fault) => format!(in alloc; "{fault:?}"),
        },
        Err(fault) => format!(in alloc; "{fault:?}"),
    }
}

/// A line for each publication, with who gave its entries.
fn lines(alloc: Global, published: &[Vec<Entry>]) -> Result<String, AllocError> {
    let mut text = String::new(alloc);
    for entries in published {
        let rows = row_texts(alloc, 1, entries.as_slice())?;
        for row in &rows {
            text.push_str(row.actor.as_str())?;
            text.push_str(";")?;
        }
        text.push_str("\n")?;
    }
    Ok(text)
}

#[test]
fn what_is_kept_is_read_back(rt: HostRuntime) -> Result<(), Fail> {
    let mut journal = new_journal(rt.alloc())?;
    if let (Some(ann), Some(bob)) = (held("Ann", 7), held("Bob", 8)) {
        assert!(rt; is_kept(&mut journal, &[ann, bob]));
        assert!(rt; is_kept(&mut journal, &[bob]));
    }
    if let Some(solver) = solved(rt.alloc(), 1) {
        assert!(rt; is_kept(&mut journal, &[solver]));
    }
    assert_eq!(rt;
        read_again(&rt, rt.alloc(), journal)?.as_str(),
        "user Ann;user Bob;\nuser Bob;\nsolver;\n"
    );
    Ok(())
}

#[test]
fn a_new_journal_has_no_publication(rt: HostRuntime) -> Result<(), Fail> {
    let journal = new_journal(rt.alloc())?;
    assert_eq!(rt; read_again(&rt, rt.alloc(), journal)?.as_str(), "");
    Ok(())
}

// ---- why a journal isn't opened, by name

/// What is done to a journal of three entries, the object and the visits with which it is opened again, and what comes of
/// it.
const OPENED: [(&str, &str, u64, &str); 9] = [
    ("", "{}", 1_000_000, "user Ann;user Bob;\nsolver;\n"),
    ("DROP TABLE entry", "{}", 1_000_000, "NotAJournal"),
    ("", "{\"edition\":2}", 1_000_000, "OtherSession"),
    (
        "DELETE FROM entry WHERE number = 2",
        "{}",
        1_000_000,
        "Misnumbered",
    ),
    (
        "UPDATE entry SET publication = 3 WHERE number = 3",
        "{}",
        1_000_000,
        "Misnumbered",
    ),
    (
        "UPDATE entry SET actor = 'solver' WHERE number = 1",
        "{}",
        1_000_000,
        "Unreadable(1)",
    ),
    (
        "UPDATE entry SET command = '{\"board\": 8,\"cmd\":\"Hold\"}' WHERE number = 2",
        "{}",
        1_000_000,
        "Unreadable(2)",
    ),
    (
        "UPDATE entry SET command = replace(command, '13', '12') WHERE number = 3",
        "{}",
        1_000_000,
        "Unreadable(3)",
    ),
    ("", "{}", 0, "Unsolved(3)"),
];

/// A journal of three entries in two publications, in which something was changed.
fn changed_journal(alloc: Global, sql: &str) -> Result<Connection<MemStore>, Error> {
    let mut journal = new_journal(alloc)?;
    if let (Some(ann), Some(bob)) = (held("Ann", 7), held("Bob", 8)) {
        let _kept = is_kept(&mut journal, &[ann, bob]);
    }
    if let Some(solver) = solved(alloc, 1) {
        let _kept = is_kept(&mut journal, &[solver]);
    }
    let mut conn = journal.into_connection();
    match conn.execute_batch(sql) {
        Ok(()) => Ok(conn),
        Err(error) => {
            drop(conn);
            Err(error)
        }
    }
}

/// The publications of the journal of a session, or why it isn't opened.
fn opened_again<R: Threads + Sync>(
    rt: &R,
    alloc: Global,
    conn: &mut Connection<MemStore>,
    object: &str,
    visits: u64,
) -> Result<String, AllocError> {
    if !conn.is_autocommit() {
        return String::from_str(alloc, "in a transaction");
    }
    let rows = match take_up(alloc, conn, object, b"boards") {
        Ok(rows) => rows,
        Err(fault) => return format!(in alloc; "{}", fault_of_file(fault)),
    };
    match read_publications(rt, alloc, rows.as_slice(), visits, 1) {
        Ok(published) => lines(alloc, published.as_slice()),
        Err(fault) => format!(in alloc; "{}", fault_of_rows(fault)),
    }
}

/// The same of a journal in which something was changed.
fn changed_again<R: Threads + Sync>(
    rt: &R,
    alloc: Global,
    sql: &str,
    object: &str,
    visits: u64,
) -> Result<String, AllocError> {
    let Ok(mut conn) = changed_journal(alloc, sql) else {
        return String::from_str(alloc, "not changed");
    };
    let told = opened_again(rt, alloc, &mut conn, object, visits);
    drop(conn);
    told
}

#[test]
fn a_journal_that_is_not_opened_is_refused_by_name(rt: HostRuntime) -> Result<(), Fail> {
    for (sql, object, visits, name) in OPENED {
        assert_eq!(rt;
            changed_again(&rt, rt.alloc(), sql, object, visits)?.as_str(),
            name,
            "{sql} {object} {visits}"
        );
    }
    Ok(())
}

const FAILURES: [(TakeFault, &str); 4] = [
    (TakeFault::Busy, "JournalBusy"),
    (TakeFault::Damaged, "JournalDamaged"),
    (TakeFault::Unread, "JournalUnread"),
    (TakeFault::OutOfMemory, "OutOfMemory"),
];

#[test]
fn what_fails_at_the_file_is_named(rt: HostRuntime) -> Result<(), Fail> {
    for (fault, name) in FAILURES {
        let text = format!(in rt.alloc(); "{}", fault_of_file(fault))?;
        assert_eq!(rt; text.as_str(), name);
    }
    Ok(())
}

// ---- calls of the disk that fail

/// The files of a journal, of which the log fails from one call on, and the database from another.
fn fused(alloc: Global, log_calls: u64, db_calls: u64) -> Files<Fuse<Memory>> {
    Files {
        log: Fuse::new(Memory::new(alloc), log_calls),
        db: Fuse::new(Memory::new(alloc), db_calls),
    }
}

/// The journal in two files, which is made if there is none.
fn found_in<D: Disk + Drop>(alloc: Global, files: Files<D>) -> Option<FoundJournal<FileStore<D>>> {
    if !files.may_be_used() {
        drop(files);
        return None;
    }
    let mut conn = match Connection::open_files(alloc, files, Options::new(1)) {
        Ok(conn) => conn,
        Err(refused) => {
            drop(refused);
            return None;
        }
    };
    match take_up(alloc, &mut conn, "{}", b"boards") {
        Ok(rows) => Some(FoundJournal::new(conn, rows)),
        Err(_) => {
            drop(conn);
            None
        }
    }
}

/// The store of a journal that was just made.
fn made_in<R: Threads + Sync, D: Disk + Drop>(
    rt: &R,
    alloc: Global,
    files: Files<D>,
) -> Option<RowJournal<FileStore<D>>> {
    match found_in(alloc, files)?.read(rt, alloc, 0, 1) {
        Ok(opened) => Some(opened.store),
        Err(refused) => {
            drop(refused);
            None
        }
    }
}

/// How many publications a start finds in two files.
fn count_in<R: Threads + Sync, D: Disk + Drop>(
    rt: &R,
    alloc: Global,
    files: Files<D>,
) -> Option<usize> {
    match found_in(alloc, files)?.read(rt, alloc, 0, 1) {
        Ok(opened) => {
            let count = opened.publications.len();
            drop(opened);
            Some(count)
        }
        Err(refused) => {
            drop(refused);
            None
        }
    }
}

/// How many publications were kept, and why the next one wasn't, if there was one.
fn keep_three<S: Alter + Drop>(
    journal: &mut RowJournal<S>,
    entry: &Entry,
) -> (usize, Option<KeepFault>) {
    let mut kept = 0usize;
    for _ in 0..3 {
        if !journal.is_open() {
            return (kept, None);
        }
        match journal.keep(&[*entry]) {
            Ok(()) => kept = kept.saturating_add(1),
            Err(fault) => return (kept, Some(fault)),
        }
    }
    (kept, None)
}

/// The same bytes in a file that does not fail.
fn copy_of(alloc: Global, file: &Fuse<Memory>) -> Memory {
    let mut copy = Memory::new(alloc);
    if copy.may_be_used() {
        let _written = copy.write_at(0, file.inner().bytes());
    }
    copy
}

/// Whether a start finds what was told to be kept, and of what isn't known all or nothing.
fn is_as_told(found: Option<usize>, kept: usize, fault: &Option<KeepFault>) -> bool {
    match fault {
        Some(KeepFault::Unsure) => found == Some(kept) || found == Some(kept.saturating_add(1)),
        _ => found == Some(kept),
    }
}

/// What was met: no journal could be made, a publication wasn't kept, it isn't known, all were kept; and whether each start
/// found what it was told.
#[derive(Clone, Copy)]
struct Met {
    unmade: bool,
    not_kept: bool,
    unsure: bool,
    all: bool,
    as_told: bool,
}

/// Keeps three publications where the files fail from some call on, and starts again after it: with all that was written,
/// and with what was synced alone.
fn keep_with<R: Threads + Sync>(
    rt: &R,
    alloc: Global,
    entry: &Entry,
    log_calls: u64,
    db_calls: u64,
    met: &mut Met,
) {
    let Some(mut journal) = made_in(rt, alloc, fused(alloc, log_calls, db_calls)) else {
        met.unmade = true;
        return;
    };
    let (kept, fault) = keep_three(&mut journal, entry);
    met.all = kept == 3;
    match fault {
        Some(KeepFault::NotKept) => met.not_kept = true,
        Some(KeepFault::Unsure) => met.unsure = true,
        None => {}
    }
    let Files { mut log, mut db } = Leftover::Store(
        journal.into_connection().into_store(),
    ).into_files();
    let written = Files {
        log: copy_of(alloc, &log),
        db: copy_of(alloc, &db),
    };
    log.crash();
    db.crash();
    let synced = Files { log, db };
    let is_as_written = is_as_told(count_in(rt, alloc, written), kept, &fault);
    let is_as_synced = is_as_told(count_in(rt, alloc, synced), kept, &fault);
    met.as_told = met.as_told && is_as_written && is_as_synced;
}

/// What is met where one of the two files fails from each call on, in turn.
fn each_call_fails<R: Threads + Sync>(rt: &R, alloc: Global, entry: &Entry, is_log: bool) -> Met {
    let mut met = Met {
        unmade: false,
        not_kept: false,
        unsure: false,
        all: false,
        as_told: true,
    };
    for calls in 0..1_000 {
        if met.all {
            return met;
        }
        if is_log {
            keep_with(rt, alloc, entry, calls, u64::MAX, &mut met);
        } else {
            keep_with(rt, alloc, entry, u64::MAX, calls, &mut met);
        }
    }
    met
}

#[test]
fn a_start_finds_what_was_told_whichever_call_failed(rt: HostRuntime) {
    if let Some(entry) = held("Ann", 7) {
        for is_log in [true, false] {
            let met = each_call_fails(&rt, rt.alloc(), &entry, is_log);
            assert!(rt; met.as_told, "{is_log}");
            assert!(rt; met.unmade && met.all, "{is_log}");
            assert!(rt; !is_log || (met.not_kept && met.unsure));
        }
    }
}
