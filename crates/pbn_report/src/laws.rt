//! What follows from the definitions alone: each function here has nothing to do, and its clauses are the theorem.

ghost use Rattle.std.specs.Prelude.{◌≤◌, length, map};
ghost use Rattle.pbn_records.specs.Reads.{Reads};
ghost use Rattle.session_report.specs.declared.report.Report.{Report};
ghost use Rattle.session_report.specs.Report.{AreReported};
ghost use Rattle.pbn_report.specs.PbnText.{board_read, pbn_text};

/// What is written of a report is read as its boards, whatever the session is called and whoever plays.
#[tactic(auto, using(crate::proofs::PbnLemmas::report_reads_back))]
pub fn what_is_written_is_read_back()
    ensures { (report : Report) → AreReported 1 report.boards → length report.boards ≤ 128 →
        Reads (pbn_text report) (length report.boards) (map board_read report.boards) }
{}
