//! What follows from the definitions alone: each function here has nothing to do, and its clauses are the theorem.

ghost use Rattle.std.specs.Prelude.{◌≡◌, ◌≤◌, List, ℕ, true, length, map};
ghost use Rattle.std.specs.List.{list_all};
ghost use Rattle.pbn_pieces.specs.Pieces.{is_within_quotes};
ghost use Rattle.pbn_records.specs.Reads.{Reads};
ghost use Rattle.pbn_export.specs.Tables.{GameTag, value_text};
ghost use Rattle.pbn_export.specs.Games.{ExportedBoard};
ghost use Rattle.pbn_export.specs.Export.{AreExported, export_text, is_further};

/// Whatever stands in a text from people, it ends with its quotes and not before.
#[tactic(auto, using(crate::proofs::SpellLemmas::within_quotes))]
pub fn a_text_ends_with_its_quotes()
    ensures { (text : List ℕ) → is_within_quotes (value_text text) ≡ true }
{}

/// What is exported of boards is read as these boards, whatever the event is called and whoever plays: by
/// `pbn_records::laws::a_text_is_read_in_one_way` as no others.
#[tactic(auto, using(crate::proofs::ReadLemmas::reads_back))]
pub fn what_is_exported_is_read_back()
    ensures { (boards : List ExportedBoard) (last : List GameTag) → AreExported 1 boards → length boards ≤ 128 →
        list_all is_further last ≡ true →
        Reads (export_text boards last) (length boards) (map (λ (b : ExportedBoard). b.board) boards) }
{}
