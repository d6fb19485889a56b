//! What follows from the definitions alone: each function here has nothing to do, and its clauses are the theorem.
ghost use Rattle.std.specs.Prelude.{◌≡◌};
ghost use Rattle.session_commands.specs.declared.entry.Entry.{Entry};
ghost use Rattle.entry_texts.specs.EntryTexts.{texts_of_entry, IsKeepable};

/// No two entries have the same texts.
pub fn texts_tell_the_entry()
    ensures { (one other : Entry) → IsKeepable one → IsKeepable other →
        texts_of_entry one ≡ texts_of_entry other → one ≡ other }
{}
