//! Publications written as rows and read again.

use super::entries::{held, solved};
use journal_store::RowText;
use kept_entries::{read_publications, row_texts};
use std::alloc::{AllocError, Global};
use std::test::Fail;
use std::thread::Threads;

const BEGINNING: &str = "1 user Ann {\"board\":7,\"cmd\":\"Hold\"}
1 user Bob {\"board\":8,\"cmd\":\"Hold\"}
2 solver {\"board\":1,";

// The helpers have no clause, so that a test's proof does not carry what its calls say.

/// The rows of three publications: of two entries, of the solver's, and of one.
fn rows(alloc: Global) -> Result<Vec<RowText>, AllocError> {
    let mut rows = Vec::new(alloc);
    if let (Some(ann), Some(bob)) = (held("Ann", 7), held("Bob", 8)) {
        rows.append(&mut row_texts(alloc, 1, &[ann, bob])?)?;
        rows.append(&mut row_texts(alloc, 3, &[ann])?)?;
    }
    if let Some(solver) = solved(alloc, 1) {
        let mut found = row_texts(alloc, 2, &[solver])?;
        if rows.len() == 3
            && let Some(row) = found.pop()
        {
            rows.insert(2, row)?;
        }
    }
    Ok(rows)
}

/// Rows as lines.
fn lines(alloc: Global, rows: &[RowText]) -> Result<String, AllocError> {
    let mut text = String::new(alloc);
    for row in rows {
        let line = format!(in alloc; "{} {} {}\n", row.publication, row.actor, row.command)?;
        text.push_str(&line)?;
    }
    Ok(text)
}

/// The rows of what is read of rows, with so many visits, or why they aren't read.
fn read_again<R: Threads + Sync>(
    rt: &R,
    alloc: Global,
    rows: &[RowText],
    visits: u64,
    workers: usize,
) -> Result<String, AllocError> {
    match read_publications(rt, alloc, rows, visits, workers) {
        Ok(published) => {
            let mut text = String::new(alloc);
            let mut number = 0u32;
            for entries in &published {
                number = number.saturating_add(1);
                let rows = row_texts(alloc, number, entries.as_slice())?;
                text.push_str(&lines(alloc, rows.as_slice())?)?;
            }
            Ok(text)
        }
        Err(fault) => format!(in alloc; "{fault:?}"),
    }
}

#[test]
fn what_is_written_is_read_again(rt: HostRuntime) -> Result<(), Fail> {
    let rows = rows(rt.alloc())?;
    let text = lines(rt.alloc(), rows.as_slice())?;
    assert_eq!(rt; rows.len(), 4);
    assert!(rt; text.starts_with(BEGINNING));
    assert_eq!(rt;
        read_again(&rt, rt.alloc(), rows.as_slice(), 1_000_000, 2)?.as_str(),
        text.as_str()
    );
    assert_eq!(rt; read_again(&rt, rt.alloc(), &[], 0, 1)?.as_str(), "");
    Ok(())
}

#[test]
fn what_is_not_solved_again_is_named(rt: HostRuntime) -> Result<(), Fail> {
    let rows = rows(rt.alloc())?;
    assert_eq!(rt;
        read_again(&rt, rt.alloc(), rows.as_slice(), 0, 2)?.as_str(),
        "Unsolved(3)"
    );
    assert_eq!(rt;
        read_again(&rt, rt.alloc(), rows.as_slice(), 1_000_000, 0)?.as_str(),
        "Unsolved(3)"
    );
    Ok(())
}

#[test]
fn other_rows_are_refused(rt: HostRuntime) -> Result<(), Fail> {
    let mut rows = rows(rt.alloc())?;
    // The same command, in other words.
    let words = String::from_str(rt.alloc(), "{\"board\": 8,\"cmd\":\"Hold\"}")?;
    if let Some(row) = rows.get_mut(1) {
        row.command = words;
    }
    assert_eq!(rt;
        read_again(&rt, rt.alloc(), rows.as_slice(), 1_000_000, 2)?.as_str(),
        "Unreadable(2)"
    );
    let nobody = String::from_str(rt.alloc(), "nobody")?;
    if let Some(row) = rows.get_mut(0) {
        row.actor = nobody;
    }
    assert_eq!(rt;
        read_again(&rt, rt.alloc(), rows.as_slice(), 1_000_000, 2)?.as_str(),
        "Unreadable(1)"
    );
    Ok(())
}

#[test]
fn publications_are_counted_from_1(rt: HostRuntime) -> Result<(), Fail> {
    let mut rows = rows(rt.alloc())?;
    if let Some(row) = rows.get_mut(3) {
        row.publication = 4;
    }
    assert_eq!(rt;
        read_again(&rt, rt.alloc(), rows.as_slice(), 1_000_000, 2)?.as_str(),
        "Misnumbered"
    );
    if let Some(row) = rows.get_mut(0) {
        row.publication = 2;
    }
    assert_eq!(rt;
        read_again(&rt, rt.alloc(), rows.as_slice(), 1_000_000, 2)?.as_str(),
        "Misnumbered"
    );
    Ok(())
}
