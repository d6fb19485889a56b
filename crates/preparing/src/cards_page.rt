//! The page of cards: one for each person, eight on a sheet.

ghost use Rattle.std.specs.Prelude.{◌≡◌, IfOk, string_bytes};
ghost use Rattle.std.specs.List.{flat_map};
ghost use Rattle.preparing.specs.CardParts.{card_head, card_sign_in, card_code};
ghost use Rattle.preparing.specs.Cards.{cards_page_text, on_page, printed_card, seat_on_card};
ghost use Rattle.preparing.specs.Guests.{guest_card};

use crate::escaping::escaped;
use crate::guest::Guest;
use disclosure_rules::Seat;
use std::alloc::{AllocError, Global};

const HEAD: &str = concat!(
    "<!DOCTYPE html>\n<html lang=\"en\">\n<head>\n<meta charset=\"utf-8\">\n<title>Sign-in cards</title>\n<style>\n",
    "@page { size: A4; margin: 10mm }\n",
    "body { margin: 0; font: 11pt sans-serif; display: grid; grid-template-columns: 94mm 94mm; gap: 2mm }\n",
    ".card { box-sizing: border-box; height: 67mm; padding: 4mm 38mm 4mm 4mm; border: 0.2mm dashed; overflow: hidden; overflow-wrap: anywhere; break-inside: avoid; position: relative }\n",
    ".card h2 { margin: 0 0 1mm; font-size: 14pt }\n",
    ".card p { margin: 0 0 1mm }\n",
    ".token { font: bold 10pt monospace }\n",
    ".code { position: absolute; right: 2mm; top: 4mm; width: 34mm; text-align: right }\n",
    ".code svg { display: block; width: 34mm; height: 34mm }\n",
    "</style>\n</head>\n<body>\n",
);

const FOOT: &str = "</body>\n</html>\n";

/// The page of the people's cards, whose page to sign in on is at this address.
pub(crate) fn cards_page(
    alloc: Global,
    address: &str,
    guests: &[Guest<'_>],
) -> Result<String, AllocError>
    ensures { IfOk result (λ page. string_bytes page ≡ cards_page_text (flat_map (guest_card (on_page address.now)) guests.now)) }
{
    let address = escaped(alloc, address)?;
    let cards = cards_of(alloc, address.as_str(), guests)?;
    page_of(alloc, cards.as_str())
}

#[tactic(auto, unfolding(crate::specs::Cards::cards_page_text))]
fn page_of(alloc: Global, cards: &str) -> Result<String, AllocError>
    ensures { IfOk result (λ page. string_bytes page ≡ cards_page_text cards.now) }
{
    format!(in alloc; "{HEAD}{cards}{FOOT}")
}

// The cards, with the address as it stands in the page.
fn cards_of(alloc: Global, address: &str, guests: &[Guest<'_>]) -> Result<String, AllocError>
    ensures { IfOk result (λ cards. string_bytes cards ≡ flat_map (guest_card address.now) guests.now) }
{
    let mut cards = String::new(alloc);
    for guest in guests {
        let card = card(alloc, address, guest)?;
        cards.push_str(card.as_str())?;
    }
    Ok(cards)
}

// A person's card.
fn card(alloc: Global, address: &str, guest: &Guest<'_>) -> Result<String, AllocError>
    ensures { IfOk result (λ card. string_bytes card ≡ guest_card address.now guest.now) }
{
    let shown = escaped(alloc, guest.person.shown.as_str())?;
    let seat = seat_text(alloc, guest.person.seat)?;
    let name = escaped(alloc, guest.name.as_str())?;
    printed_card(
        alloc,
        shown.as_str(),
        seat.as_str(),
        address,
        name.as_str(),
        guest.token.text.as_str(),
    )
}

// A card of these texts, as they stand in the page.
#[tactic(auto, using(crate::proofs::CardLemmas::card_of_parts))]
fn printed_card(
    alloc: Global,
    shown: &str,
    seat: &str,
    address: &str,
    name: &str,
    token: &str,
) -> Result<String, AllocError>
    ensures { IfOk result (λ card. string_bytes card ≡ printed_card shown.now seat.now address.now name.now token.now) }
{
    let head = card_head(alloc, shown, seat, address)?;
    let sign_in = card_sign_in(alloc, name, token)?;
    let code = card_code(alloc, address, name, token)?;
    format!(in alloc; "{head}{sign_in}{code}")
}

// Who somebody is, and where to sit and to sign in.
#[tactic(auto, unfolding(crate::specs::CardParts::card_head))]
fn card_head(alloc: Global, shown: &str, seat: &str, address: &str) -> Result<String, AllocError>
    ensures { IfOk result (λ head. string_bytes head ≡ card_head shown.now seat.now address.now) }
{
    format!(in alloc;
        "<div class=\"card\">\n<h2><bdi>{shown}</bdi></h2>\n<p class=\"seat\">{seat}</p>\n<p class=\"address\">{address}</p>\n"
    )
}

// By what one signs in.
#[tactic(auto, unfolding(crate::specs::CardParts::card_sign_in))]
fn card_sign_in(alloc: Global, name: &str, token: &str) -> Result<String, AllocError>
    ensures { IfOk result (λ part. string_bytes part ≡ card_sign_in name.now token.now) }
{
    format!(in alloc; "<p>Sign in as <b>{name}</b></p>\n<p class=\"token\">{token}</p>\n")
}

// The same together, for a code.
#[tactic(auto, unfolding(crate::specs::CardParts::card_code))]
fn card_code(alloc: Global, address: &str, name: &str, token: &str) -> Result<String, AllocError>
    ensures { IfOk result (λ code. string_bytes code ≡ card_code address.now name.now token.now) }
{
    format!(in alloc;
        "<p class=\"code\" data-link=\"{address}#{name}:{token}\">no QR code</p>\n</div>\n"
    )
}

/// The pair and the place of a seat, or nothing.
pub(crate) fn seat_text(alloc: Global, seat: Option<Seat>) -> Result<String, AllocError>
    ensures { IfOk result (λ text. string_bytes text ≡ seat_on_card seat) }
{
    match seat {
        Some(seat) => {
            let pair = seat.pair;
            let place = seat.place;
            format!(in alloc; "{pair} {place}")
        }
        None => Ok(String::new(alloc)),
    }
}
