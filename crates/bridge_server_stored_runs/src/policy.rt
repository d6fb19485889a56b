//! What the policy says of a board's hands, from the words of a line: whether a copy of the state forbids a user to see
//! them, and whether a denial is the one that the user gets.

use crate::solver::number_in;
use denials::{Denial, check};
use disclosure_rules::{Fact, Rule};
use session_roles::Edition;
use session_state::State;
use std::alloc::Global;
use user_names::Name;

/// The number of the rule by which a copy of the state forbids a user a board's hands, or that none does.
pub(crate) fn decided_text(alloc: Global, state: &State, words: &str) -> Option<String> {
    let Some((user, board)) = words.split_once(" ") else {
        return None;
    };
    let (Ok(user), Ok(board)) = (Name::new(user), board.parse::<u8>()) else {
        return None;
    };
    match state.copy(alloc) {
        Ok(copy) => {
            let rule = copy.decide(user, Fact::Hands(board));
            rule_text(alloc, rule, copy.public().edition)
        }
        Err(_) => None,
    }
}

fn rule_text(alloc: Global, rule: Option<Rule>, edition: Edition) -> Option<String> {
    match rule {
        Some(rule) => format!(in alloc; "rule {}", rule.number(edition)).ok(),
        None => String::from_str(alloc, "allowed").ok(),
    }
}

/// Whether a user is denied a board's hands by this rule, with this table as evidence.
pub(crate) fn checked_text(alloc: Global, state: &State, words: &str) -> Option<String> {
    let Some((user, words)) = words.split_once(" ") else {
        return None;
    };
    let (Ok(user), Some(denial)) = (Name::new(user), denial_of(words, state.public().edition))
    else {
        return None;
    };
    let hands = Fact::Hands(denial.board);
    let holds = check(state.public(), &state.viewer(user), hands, denial);
    format!(in alloc; "{holds}").ok()
}

// The denial of a board by the rule of a number, with a table.
fn denial_of(words: &str, edition: Edition) -> Option<Denial> {
    let Some((board, words)) = number_in(words) else {
        return None;
    };
    let Some((rule, words)) = number_in(words) else {
        return None;
    };
    match (rule_numbered(rule, edition), words.parse::<u8>()) {
        (Some(rule), Ok(table)) => Some(Denial {
            rule,
            board,
            table,
            edition,
        }),
        _ => None,
    }
}

fn rule_numbered(number: u8, edition: Edition) -> Option<Rule> {
    Rule::ALL
        .into_iter()
        .find(|rule| rule.number(edition) == number)
}
