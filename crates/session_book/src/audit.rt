//! The audit: what was accepted, entry by entry.
ghost use Rattle.std.specs.Prelude.{◌≡◌, IfOk};
ghost use Rattle.session_book.specs.Audit.{audit_rows};

use session_commands::room::put_item;
use session_commands::{Actor, CommandWord, Entry, Target};
use std::alloc::{AllocError, Global};
use std::fmt;
use std::marker::Model;
use thiserror::Error;

/// What an audit tells of an entry: its number from 1, who gave the command, how it is called, and what it is about.
#[derive(Clone, Copy)]
pub struct AuditRow {
    pub number: usize,
    pub actor: Actor,
    pub word: CommandWord,
    pub target: Target,
}

/// Rows of the audit, in the order of their numbers: clauses see the list of the rows.
#[derive(Drop)]
pub struct AuditRows {
    rows: Vec<AuditRow>,
}

impl Model for AuditRows {
    ghost use Rattle.std.specs.Prelude.{List};
    ghost use Rattle.std.specs.Coded.{coded_list};
    ghost use Rattle.session_book.specs.contracts.audit.AuditRow as the_audit_row;
    ghost use Rattle.session_book.specs.declared.audit.AuditRow.{AuditRow};

    ghost Value = { List AuditRow };

    ghost coded = { coded_list the_audit_row.the_row.coded };

    ghost view = { λ audit. audit.rows.items };
}

impl AuditRows {
    /// These rows.
    pub fn new(rows: Vec<AuditRow>) -> AuditRows
        ensures { result ≡ rows.items }
    {
        AuditRows { rows }
    }

    /// The rows.
    pub fn as_slice(&self) -> &[AuditRow]
        ensures { result.now ≡ self.now }
    {
        &self.rows
    }
}

/// Why no audit is given.
#[derive(Clone, Copy, Debug, Error)]
pub enum AuditError {
    NotPermitted,
    OutOfMemory,
}

impl fmt::Display for AuditError {
    fn fmt<W: fmt::Write>(&self, f: &mut fmt::Formatter<W>) -> fmt::Result {
        f.write_str(match self {
            AuditError::NotPermitted => "the user has no permission for the audit",
            AuditError::OutOfMemory => "out of memory",
        })
    }
}

/// The rows of a journal from a number on, at most so many.
pub fn rows_of(
    alloc: Global,
    journal: &[Entry],
    from: usize,
    limit: usize,
) -> Result<Vec<AuditRow>, AllocError>
    ensures { IfOk result (λ rows. rows.items ≡ audit_rows journal.now from limit) }
{
    let before = from.max(1) - 1;
    let before = before.min(journal.len());
    let count = limit.min(journal.len() - before);
    let mut rows = Vec::with_capacity(alloc, count)?;
    for k in 0..count {
        let entry = journal[before + k];
        let row = AuditRow {
            number: before + k + 1,
            actor: entry.actor,
            word: entry.command.word(),
            target: entry.command.target(),
        };
        put_item(&mut rows, row);
    }
    Ok(rows)
}
