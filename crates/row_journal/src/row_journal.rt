//! A journal in a database, as a store of entries.

ghost use Rattle.std.specs.Prelude.{◌≡◌, ◌+◌, ◌<◌, ◌≤◌, false, not};
ghost use Rattle.sqlite.specs.View.{doubt};
ghost use Rattle.sqlite.specs.State.{HasCleanDisk};
ghost use Rattle.sqlite.specs.Held.{state};
ghost use Rattle.journal_store.specs.Kept.{most_entry_rows};
ghost use Rattle.row_journal.specs.Leaving.{LeavesPublications, Outcomes, Follows};

use entry_store::{EntryStore, KeepFault};
use journal_store::{AppendFault, MOST_ROWS, append};
use kept_entries::row_texts;
use session_commands::Entry;
use sqlite::{Alter, Connection};
use std::alloc::Global;
use std::marker::Model;

/// A journal in a database: a row for each entry, and one transaction for each publication.
#[derive(Drop)]
pub struct RowJournal<S: Alter> {
    conn: Connection<S>,
    next: u32,
    last: u32,
    shut: bool,
    alloc: Global,
}

impl<S: Alter> Model for RowJournal<S> {
    ghost use Rattle.std.specs.Prelude.{◌≡◌, ◌+◌, ◌<◌, ◌≤◌, false};
    ghost use Rattle.sqlite.specs.State.{HasCleanDisk};
    ghost use Rattle.sqlite.specs.Held.{state};
    ghost use Rattle.journal_store.specs.Kept.{most_entry_rows};
    ghost use Rattle.row_journal.specs.Leaving.{RowLedger, journal_code, Outcomes, Follows};

    ghost Value = { RowLedger S };

    ghost coded = { journal_code S.code };

    ghost view = { λ j. record { conn = j.conn; next = j.next; last = j.last; shut = j.shut } };

    ghost invariant = { λ j. (j.conn.in_transaction ≡ false) × (j.last < j.next) × (j.next ≤ most_entry_rows + 1)
        × (HasCleanDisk (state S.Store j.conn) → Outcomes (state S.Store j.conn))
        × (HasCleanDisk (state S.Store j.conn) → j.shut ≡ false →
        Follows (state S.Store j.conn) j.next j.last) };
}

impl<S: Alter> RowJournal<S> {
    /// The journal in a database that keeps the rows of some publications, up to the number of the last. The next row
    /// gets the number `next`.
    pub fn new(alloc: Global, conn: Connection<S>, next: u32, last: u32) -> RowJournal<S>
        requires alone { conn.in_transaction ≡ false }
        requires before { last < next }
        requires few { next ≤ most_entry_rows + 1 }
        requires follows { HasCleanDisk (state S.Store conn) → Follows (state S.Store conn) next last }
        ensures { result ≡ record { conn = conn; next = next; last = last; shut = false } }
    {
        RowJournal {
            conn,
            next,
            last,
            shut: false,
            alloc,
        }
    }

    /// Gives back the database.
    pub fn into_connection(self) -> Connection<S>
        ensures conn { result ≡ self.conn }
        ensures outcomes { HasCleanDisk (state S.Store self.conn) → Outcomes (state S.Store self.conn) }
    {
        self.conn
    }
}

impl<S: Alter + Drop> EntryStore for RowJournal<S> {
    ghost doubt = { λ j. doubt (state S.Store j.conn).is_clean };

    ghost leaves = { λ j. LeavesPublications (state S.Store j.conn) };

    ghost is_open = { λ j. not j.shut };

    ghost fails = { Unit {0} };

    fn is_open(&self) -> bool {
        !self.shut
    }

    fn keep(&mut self, entries: &[Entry]) -> Result<(), KeepFault> {
        if entries.len() > MOST_ROWS + 1 - self.next as usize {
            return Err(KeepFault::NotKept);
        }
        let Ok(rows) = row_texts(self.alloc, self.last + 1, entries) else {
            return Err(KeepFault::NotKept);
        };
        match append(&mut self.conn, self.next, rows.as_slice()) {
            Ok(()) => {
                self.next += entries.len() as u32;
                self.last += 1;
                Ok(())
            }
            Err(AppendFault::NotKept) => Err(KeepFault::NotKept),
            Err(AppendFault::Unsure) => {
                self.shut = true;
                Err(KeepFault::Unsure)
            }
        }
    }
}
