//! The list of who signs in by what: for whoever gives the tokens out, and nobody else.

ghost use Rattle.std.specs.Prelude.{◌≡◌, ◌++◌, IfOk, OnOk, string_bytes};
ghost use Rattle.std.specs.List.{flat_map};
ghost use Rattle.preparing.specs.Guests.{guest_line};
ghost use Rattle.preparing.specs.SignInList.{sign_in_list_text, quoted, quoted_sign};

use crate::cards_page::seat_text;
use crate::guest::Guest;
use std::alloc::{AllocError, Global};

/// A CSV text with a line for each person: the name to show, the seat, the name to sign in by and the token.
pub(crate) fn sign_in_list(alloc: Global, guests: &[Guest<'_>]) -> Result<String, AllocError>
    ensures { IfOk result (λ list. string_bytes list ≡ sign_in_list_text (flat_map guest_line guests.now)) }
{
    let mut list = String::from_str(alloc, "name,seat,sign_in,token\n")?;
    for guest in guests {
        let line = line_of(alloc, guest)?;
        list.push_str(line.as_str())?;
    }
    Ok(list)
}

// A person's line. No name to sign in by, seat or token has a sign that CSV puts in quotes.
#[tactic(auto, unfolding(crate::specs::SignInList::sign_in_line_text))]
fn line_of(alloc: Global, guest: &Guest<'_>) -> Result<String, AllocError>
    ensures { IfOk result (λ line. string_bytes line ≡ guest_line guest.now) }
{
    let shown = quoted(alloc, guest.person.shown.as_str())?;
    let seat = seat_text(alloc, guest.person.seat)?;
    let name = guest.name.as_str();
    let token = guest.token.text.as_str();
    format!(in alloc; "{shown},{seat},{name},{token}\n")
}

// A text as a field of CSV: in double quotes, each of its own written twice.
fn quoted(alloc: Global, text: &str) -> Result<String, AllocError>
    ensures { IfOk result (λ field. string_bytes field ≡ quoted text.now) }
{
    let mut field = String::from_str(alloc, "\"")?;
    for sign in text.chars() {
        push_quoted(&mut field, sign)?;
    }
    field.push('"')?;
    Ok(field)
}

fn push_quoted(field: &mut String, sign: char) -> Result<(), AllocError>
    ensures { OnOk result (string_bytes field.new ≡ string_bytes field.old ++ quoted_sign sign) }
{
    match sign {
        '"' => field.push_str("\"\""),
        _ => field.push(sign),
    }
}
