ghost use Rattle.std.specs.Prelude.{◌≡◌, ◌≢◌, ◌≤◌, true, IfSome, IfNone, Some};
ghost use Rattle.mitchell.specs.Mitchell.{most_rounds};
ghost use Rattle.named_movements.specs.Words.{text_of_word, can_have_tables, can_have_rounds, sets_of_word, sharing_of_word};
ghost use Rattle.named_movements.specs.declared.movement_word.MovementWord.{MovementWord};

use movement::Movement;
use std::fmt;

/// A movement by its name in the field.
#[derive(Clone, Copy)]
pub enum MovementWord {
    Mitchell,
    Howell,
    ShareAndRelay,
    Web,
}

impl MovementWord {
    /// The word, as `share_and_relay`.
    pub fn text(self) -> &'static str
        ensures { result.now ≡ text_of_word self }
    {
        match self {
            MovementWord::Mitchell => "mitchell",
            MovementWord::Howell => "howell",
            MovementWord::ShareAndRelay => "share_and_relay",
            MovementWord::Web => "web",
        }
    }

    /// The movement of a word.
    pub fn of_text(text: &str) -> Option<MovementWord>
        ensures found { IfSome result (λ word. text_of_word word ≡ text.now) }
        ensures none { IfNone result ((word : MovementWord) → text_of_word word ≢ text.now) }
    {
        match text {
            "mitchell" => Some(MovementWord::Mitchell),
            "howell" => Some(MovementWord::Howell),
            "share_and_relay" => Some(MovementWord::ShareAndRelay),
            "web" => Some(MovementWord::Web),
            _ => None,
        }
    }

    // Whether the movement can be played at so many tables.
    pub(crate) fn can_have_tables(self, tables: u8) -> bool
        ensures { result ≡ can_have_tables self tables }
    {
        match self {
            MovementWord::Mitchell => {
                Movement::LEAST_TABLES <= tables && tables <= Movement::MOST_TABLES
            }
            MovementWord::Howell => 3 <= tables && tables <= 8,
            MovementWord::ShareAndRelay => {
                tables % 2 == 0 && 4 <= tables && tables <= Movement::MOST_TABLES
            }
            MovementWord::Web => tables % 2 == 0 && 6 <= tables && tables <= Movement::MOST_TABLES,
        }
    }

    // Whether so many rounds of it can be played.
    pub(crate) fn can_have_rounds(self, tables: u8, rounds: u8) -> bool
        requires { can_have_tables self tables ≡ true }
        ensures { result ≡ can_have_rounds self tables rounds }
    {
        match self {
            MovementWord::Mitchell => 1 <= rounds && rounds <= most_rounds(tables),
            MovementWord::Howell => 1 <= rounds && rounds <= 2 * tables - 1,
            MovementWord::ShareAndRelay => 1 <= rounds && rounds <= tables,
            MovementWord::Web => rounds % 2 == 1 && rounds < tables,
        }
    }

    // How many sets it has.
    pub(crate) fn sets(self, tables: u8, rounds: u8) -> u8
        requires { can_have_tables self tables ≡ true }
        ensures { result ≡ sets_of_word self tables rounds }
    {
        match self {
            MovementWord::Mitchell | MovementWord::ShareAndRelay => tables,
            MovementWord::Howell => 2 * tables - 1,
            MovementWord::Web => rounds,
        }
    }

    // By how many tables a set is played in one round at most.
    pub(crate) fn shared_by(self, tables: u8, rounds: u8) -> u8
        requires tables { can_have_tables self tables ≡ true }
        requires rounds { can_have_rounds self tables rounds ≡ true }
        ensures { result ≡ sharing_of_word self tables rounds }
    {
        match self {
            MovementWord::Mitchell => 1,
            MovementWord::Howell => { if tables == 3 { 3 } else { 1 } }
            MovementWord::ShareAndRelay => 2,
            MovementWord::Web => 2 * ((tables / 2 + rounds - 1) / rounds),
        }
    }
}

/// The most rounds of a Mitchell.
fn most_rounds(tables: u8) -> u8
    requires { 1 ≤ tables }
    ensures { result ≡ most_rounds tables }
{
    if tables % 2 == 0 { tables - 1 } else { tables }
}

impl fmt::Display for MovementWord {
    ghost output = { λ word. Some (text_of_word word) };

    fn fmt<W: fmt::Write>(&self, f: &mut fmt::Formatter<W>) -> fmt::Result {
        f.write_str(self.text())
    }
}
