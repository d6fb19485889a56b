//! A journal whose file is open, and whose rows are to be read.

ghost use Rattle.std.specs.Prelude.{◌≡◌, ◌≢◌, List, map, false, IfOk, IfErr};
ghost use Rattle.sqlite.specs.Order.{Row};
ghost use Rattle.sqlite.specs.State.{HasCleanDisk};
ghost use Rattle.sqlite.specs.Held.{state};
ghost use Rattle.session_commands.specs.declared.entry.Entry.{Entry};
ghost use Rattle.session_state.specs.SessionState.{SessionState};
ghost use Rattle.session_book.specs.Journal.{IsAccepted};
ghost use Rattle.history.specs.Prefixes.{entries_of};
ghost use Rattle.journal_store.specs.Kept.{texts_of, Rests};
ghost use Rattle.kept_entries.specs.KeptRows.{AreKeepable, lists_in, rows_of};
ghost use Rattle.row_journal.specs.Leaving.{LeavesPublications};
ghost use Rattle.row_journal.specs.declared.journal_fault.JournalFault.TheVariants.{Misnumbered};
ghost use Rattle.row_journal.specs.Faults.{IsOpeningWant, WhyRowsNotRead};

use crate::journal_fault::{JournalFault, fault_of_rows};
use crate::row_journal::RowJournal;
use journal_store::RowText;
use kept_entries::read_publications;
use session_commands::Entry;
use sqlite::{Alter, Connection};
use std::alloc::Global;
use std::marker::Model;
use std::thread::Threads;

/// A journal whose file is open, and whose rows are to be read.
#[derive(Drop)]
pub struct FoundJournal<S: Alter> {
    conn: Connection<S>,
    rows: Vec<RowText>,
}

/// A journal that was read: the store that goes on from it, and its publications.
#[derive(Drop)]
pub struct OpenedJournal<S: Alter> {
    pub store: RowJournal<S>,
    pub publications: Vec<Vec<Entry>>,
}

impl<S: Alter> Model for FoundJournal<S> {
    ghost use Rattle.std.specs.Prelude.{◌≡◌, List, map, false};
    ghost use Rattle.sqlite.specs.Order.{Row};
    ghost use Rattle.sqlite.specs.State.{HasCleanDisk};
    ghost use Rattle.sqlite.specs.Held.{state};
    ghost use Rattle.journal_store.specs.Kept.{texts_of, Rests};
    ghost use Rattle.row_journal.specs.Leaving.{FoundRows, found_code};

    ghost Value = { FoundRows S };

    ghost coded = { found_code S.code };

    ghost view = { λ f. record { conn = f.conn; rows = f.rows.items } };

    ghost invariant = { λ f. (f.conn.in_transaction ≡ false)
        × (HasCleanDisk (state S.Store f.conn) →
        (session : List Row) × Rests session (map texts_of f.rows.items) (state S.Store f.conn)) };
}

impl<S: Alter> FoundJournal<S> {
    /// A journal with the rows that its database keeps.
    pub fn new(conn: Connection<S>, rows: Vec<RowText>) -> FoundJournal<S>
        requires alone { conn.in_transaction ≡ false }
        requires rests { HasCleanDisk (state S.Store conn) →
            (session : List Row) × Rests session (map texts_of rows.items) (state S.Store conn) }
        ensures { result ≡ record { conn = conn; rows = rows.items } }
    {
        FoundJournal { conn, rows }
    }

    /// Gives back the database, whose rows aren't read.
    pub fn into_connection(self) -> Connection<S>
        ensures { result ≡ self.conn }
    {
        self.conn
    }
}

impl<S: Alter + Drop> FoundJournal<S> {
    /// Reads the publications. What the solver found is found again, by so many workers beside one another, each time
    /// with so many visits. No row is changed. Rows of publications whose entries are an accepted journal are refused for
    /// want of memory or visits alone. A refusal comes with the database.
    pub fn read<R: Threads + Sync>(
        self,
        rt: &R,
        alloc: Global,
        budget: u64,
        workers: usize,
    ) -> Result<OpenedJournal<S>, (JournalFault, Connection<S>)>
        ensures open { IfOk result (λ o. (o.store.shut ≡ false) × (o.store.conn ≡ self.conn)) }
        ensures rows { IfOk result (λ o. map texts_of self.rows ≡ rows_of (lists_in o.publications.items)) }
        ensures keepable { IfOk result (λ o. AreKeepable (lists_in o.publications.items)) }
        ensures leaves { IfOk result (λ o. HasCleanDisk (state S.Store self.conn) → (found : List (List Entry))
            → LeavesPublications (state S.Store self.conn) found → found ≡ lists_in o.publications.items) }
        ensures left { IfErr result (λ e. e.1 ≡ self.conn) }
        ensures fault { IfErr result (λ e. WhyRowsNotRead self.rows e.0) }
        ensures numbered { IfErr result (λ e. HasCleanDisk (state S.Store self.conn) → e.0 ≢ Misnumbered) }
        ensures accepted { (opening : SessionState) (published : List (List Entry)) → AreKeepable published
            → IsAccepted opening (entries_of published) → map texts_of self.rows ≡ rows_of published
            → IfErr result (λ e. IsOpeningWant e.0) }
    {
        let FoundJournal { conn, rows } = self;
        let publications = match read_publications(rt, alloc, rows.as_slice(), budget, workers) {
            Ok(publications) => publications,
            Err(fault) => return Err((fault_of_rows(fault), conn)),
        };
        let next = rows.len() as u32 + 1;
        let last = publications.len() as u32;
        Ok(OpenedJournal {
            store: RowJournal::new(alloc, conn, next, last),
            publications,
        })
    }
}
