//! The journal's file is left with everything in it.

ghost use Rattle.std.specs.Prelude.{◌≡◌, true, [], List, IfOk, IfErr};
ghost use Rattle.sqlite.specs.Order.{Row};
ghost use Rattle.sqlite.specs.Recovery.{Image};
ghost use Rattle.sqlite.specs.Files.{file_state};
ghost use Rattle.sqlite.specs.WalFiles.{outcomes};
ghost use Rattle.sqlite.specs.WalReads.{AreClean};
ghost use Rattle.journal_store.specs.Tables.{RowBytes};
ghost use Rattle.journal_store.specs.Kept.{Rests};
ghost use Rattle.journal_store.specs.Faults.{is_failure};
ghost use Rattle.journal_store.specs.Restart.{HoldsRows};

use crate::take_fault::{TakeFault, fault_of};
use sqlite::{Connection, FileStore, Files};
use sqlite_disk::Disk;

/// Closes a journal so that its file without the log beside it has everything: once the two files that it gives are
/// let go, a copy of the one is a copy of the journal.
pub fn close_journal<D: Disk + Drop>(conn: Connection<FileStore<D>>) -> Result<Files<D>, TakeFault>
    ensures alone { IfOk result (λ files. AreClean D.Disk files.log files.db → (session : List Row) (rows : List RowBytes)
        → Rests session rows (file_state conn)
        → (image : Image) → outcomes D.Disk files.log files.db image
        → HoldsRows (record image { log = [] }) session rows) }
    ensures fault { IfErr result (λ fault. is_failure fault ≡ true) }
{
    match conn.close_files() {
        Ok(files) => Ok(files),
        Err((error, _)) => Err(fault_of(error)),
    }
}
