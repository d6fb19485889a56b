//! What each refusal means, and how to mend it. `docs/SESSION.md` has the same, in tables.

use crate::member::MemberName;
use movement::{MovementError, MovementFault};
use opened_session::OpeningFault;
use pbn_records::DealsError;
use session_object::SessionFault;
use session_opening::OpeningRefusal;

/// What a refusal means, and how to mend it.
pub(crate) fn mending_of(fault: OpeningFault) -> &'static str {
    match fault {
        OpeningFault::Session(fault) => mending_of_object(fault),
        OpeningFault::Opening(cause) => mending_of_user(cause),
    }
}

fn mending_of_object(fault: SessionFault) -> &'static str {
    match fault {
        SessionFault::TooLong => {
            "the session object has more than 1,048,576 bytes; take comments, tags that aren't used and boards that aren't played out of the PBN text"
        }
        SessionFault::Malformed => {
            "this is no JSON object in UTF-8, or one of more than 127 levels; `python3 -m json.tool` says where it breaks, and in a script it stands whole in the first line"
        }
        SessionFault::BadField => {
            "a member is missing, isn't known, or hasn't its type or its range; compare with examples/session.json"
        }
        SessionFault::Movement(error) => mending_of_movement(error),
        SessionFault::Row(fault, _) => mending_of_row(fault),
        SessionFault::Deals(error) => mending_of_deals(error),
        SessionFault::OutOfMemory => "memory was refused",
    }
}

fn mending_of_movement(error: MovementError) -> &'static str {
    match error {
        MovementError::BadTables => {
            "so many tables can't play this movement, and never fewer than 3 or more than 16; play in two sections, or another movement"
        }
        MovementError::BadRounds => {
            "so many rounds can't be played; a Mitchell has at most as many as tables, or one fewer where these are even, and a web an odd number"
        }
        MovementError::BadSets => {
            "`per_set` isn't 1 to 8, there are no sets or more than 31, or more than 128 boards; play fewer boards a round"
        }
        MovementError::BadPair => {
            "the movement has no such pair as `absent` names; name one of those that it would have"
        }
    }
}

fn mending_of_row(fault: MovementFault) -> &'static str {
    match fault {
        MovementFault::OutOfRange => {
            "a round, a table or a set of the row is 0 or above those of the session, a pair is above 16, or it stands there twice; correct the row, or `tables` and `rounds`"
        }
        MovementFault::TableTwice => {
            "the table of the row has a row in that round already; one of the two has a slip"
        }
        MovementFault::SetAtTableAgain => {
            "the table of the row has played that set already; write another set, or another table"
        }
        MovementFault::PairTwice => {
            "a pair of the row has a row in that round already; a pair sits at one table in a round"
        }
        MovementFault::SetAgain => {
            "a pair of the row has played that set already; write another set"
        }
        MovementFault::OpponentsAgain => {
            "the two pairs of the row have met already; write other opponents"
        }
        MovementFault::SharedByTooMany => {
            "as many tables as `shared_by` allows play that set in that round; write another set, or a greater `shared_by`"
        }
    }
}

fn mending_of_deals(error: DealsError) -> &'static str {
    match error {
        DealsError::BadTag(_) => {
            "a `[` outside a comment begins no tag; write [Name \"value\"], or put the text into { }"
        }
        DealsError::BadDeal(_) => {
            "the value of Deal is no deal of 52 cards; deal the board again, or copy it from the file that the dealing machine had"
        }
        DealsError::HiddenHand(_) => {
            "a hand is written as `-`, not shown; take a file that shows all four hands"
        }
        DealsError::BadMark(_) => {
            "Dealer isn't N, E, S or W, or Vulnerable isn't None, Love, -, NS, EW, All or Both; correct it, or take the tag out"
        }
        DealsError::DealConflict(_) => {
            "the board stood earlier in the text, with other cards; take one of the two out"
        }
        DealsError::InheritedForm(_) => "a value begins with ##; write the value itself",
        DealsError::MissingBoard(_) => {
            "no game has a deal of this board; add it, in a game of its own with the tags Board and Deal"
        }
        DealsError::OutOfMemory => "memory was refused",
    }
}

fn mending_of_user(cause: OpeningRefusal) -> &'static str {
    match cause {
        OpeningRefusal::BadName => {
            "a name is 1 to 32 letters, digits, `-` and `_`; rename, as anna-b in place of Anna B."
        }
        OpeningRefusal::UserExists => "two users have one name; tell them apart by a letter",
        OpeningRefusal::TooManyUsers => { "there may be 256 users; leave out who needn't sign in" }
        OpeningRefusal::NoSuchRole => {
            "the edition has no such role; take it out, or write `\"edition\":2`"
        }
        OpeningRefusal::AlreadyAssigned => "a role stands twice in `roles`; once is enough",
        OpeningRefusal::Separation(_) => {
            "who plays may not direct, score, administer or comment on the session; take one of the roles out"
        }
        OpeningRefusal::NoSuchPair => {
            "the movement has no such pair, or it is absent; correct the number"
        }
        OpeningRefusal::WrongDirection => {
            "N and S sit in a pair of NS, E and W in one of EW; correct the place"
        }
        OpeningRefusal::NotContestant => {
            "who has a seat is a contestant; give the role Contestant, or take `pair` and `place` out"
        }
        OpeningRefusal::SeatTaken => {
            "two users have one seat, and a seat has one user at most; correct the place of one, or take it out"
        }
        OpeningRefusal::LastAdministrator => {
            "nobody is authorized for Administrator; make somebody Administrator who doesn't play"
        }
        OpeningRefusal::OutOfMemory => "memory was refused",
    }
}

/// What a member of a session object is to be, and what to do where it isn't.
pub(crate) fn mending_of_member(name: MemberName) -> &'static str {
    match name {
        MemberName::Listed => {
            "this is no object, or has a member that none of its kind has, or `pair` without `place`, or `pbn` where the boards stand in a file; take it out, or correct its name"
        }
        MemberName::Absent => {
            "`absent` is a pair, NS or EW and a number from 1 to 255; write it as EW9, or take it out"
        }
        MemberName::Budget => {
            "`budget` is a whole number from 0 to 1,000,000,000,000,000,000; write it without quotes, point or sign"
        }
        MemberName::Date => {
            "`date` is a year, a month and a day; write it as 2026-11-27, or take it out"
        }
        MemberName::Edition => {
            "`edition` is 1 or 2; write it without quotes or point, or take it out"
        }
        MemberName::Movement => {
            "`movement` is no word and no list of rows that there may be, or `shared_by` or `switched` doesn't belong beside it; compare with docs/SESSION.md"
        }
        MemberName::Pbn => {
            "`pbn` is the text of the boards; write it into the object, or name their file by --deals"
        }
        MemberName::PerSet => {
            "`per_set` is a whole number from 0 to 255; write it without quotes, point or sign"
        }
        MemberName::Reasons => {
            "`reasons` is a list of 1 to 99 texts to show, of 1 to 200 bytes each; shorten the one that is too long, or take it out"
        }
        MemberName::Rounds => {
            "`rounds` is a whole number from 0 to 255; write it without quotes, point or sign"
        }
        MemberName::SharedBy => {
            "`shared_by` is a whole number from 1 to 16; write it without quotes, point or sign, or take it out"
        }
        MemberName::Switched => {
            "`switched` is a whole number up to `rounds`; write it without quotes, point or sign, or take it out"
        }
        MemberName::Tables => {
            "`tables` is a whole number from 0 to 255; write it without quotes, point or sign"
        }
        MemberName::Title => {
            "`title` is a text to show of 1 to 100 bytes; shorten it, or take it out"
        }
        MemberName::Users => "`users` is a list; write [ ] round the users",
        MemberName::Digest => {
            "`digest` is 64 hexadecimal digits; write those of `printf '%s' TOKEN | sha256sum`"
        }
        MemberName::Name => "`name` is a text of at most 32 bytes; shorten it",
        MemberName::Number => {
            "`number` is a text of 1 to 16 letters and digits; write it in quotes, or take it out"
        }
        MemberName::Pair => { "`pair` is NS or EW and a number from 1 to 255; write it as NS1" }
        MemberName::Place => { "`place` is N, E, S or W; write it beside `pair`, and nowhere else" }
        MemberName::Roles => {
            "`roles` is a list of roles that the edition has; correct the one that it hasn't"
        }
        MemberName::Shown => {
            "`shown` is a text to show of 1 to 64 bytes; shorten it, or take it out"
        }
    }
}
