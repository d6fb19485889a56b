//! A session between whose messages a solver tells what it found. The text begins with a session object; each line
//! after it is a message, or one of the solver's: `solve BOARD DEAL` tells the table of the deal of board DEAL as that
//! of board BOARD, and `analyse TABLE BOARD DEAL CARD..` tells what these cards cost in four spades by North with the
//! deal of board DEAL, as those of the table. Two lines ask about the hands of board BOARD: `decide NAME BOARD`, by
//! which rule a copy of the state forbids them to a user, and `check NAME BOARD RULE TABLE`, whether that is how they
//! are denied.

use crate::keeping::keeper_of;
use crate::policy::{checked_text, decided_text};
use crate::solver::{costs_told, table_told};
use request_answers::answer_request;
use session_book::Answer;
use session_commands::{Command, Refusal};
use session_keeper::{CommandKeeper, Keeper, PlainKeeper};
use std::alloc::Global;
use std::io::Write;
use wire::read_script_request;

/// Answers each line after the first, and whether it could; a session that isn't opened has none.
pub(crate) fn answer_beside_solver<O: Write>(alloc: Global, text: &str, writer: &mut O) -> bool {
    let Some((object, lines)) = text.split_once('\n') else {
        return false;
    };
    let Some(mut session) = Session::open(alloc, object) else {
        return false;
    };
    answer_lines(alloc, &mut session, lines, writer)
}

fn answer_lines<O: Write>(
    alloc: Global,
    session: &mut Session,
    lines: &str,
    writer: &mut O,
) -> bool {
    for line in lines.lines() {
        if !answer_line(alloc, session, line, writer) {
            return false;
        }
    }
    true
}

fn answer_line<O: Write>(alloc: Global, session: &mut Session, line: &str, writer: &mut O) -> bool {
    match session.respond(alloc, line) {
        Some(answer) => writeln!(writer, "{answer}").is_ok(),
        None => false,
    }
}

/// A session that is kept alone.
#[derive(Drop)]
pub(crate) struct Session {
    keeper: PlainKeeper,
}

impl Session {
    /// The session of an object, if it opens one.
    pub(crate) fn open(alloc: Global, object: &str) -> Option<Session> {
        let keeper = keeper_of(alloc, object)?;
        Some(Session { keeper })
    }

    /// The answer to a line.
    pub(crate) fn respond(&mut self, alloc: Global, line: &str) -> Option<String> {
        if let Some(words) = line.strip_prefix("solve ") {
            self.solve(alloc, words)
        } else if let Some(words) = line.strip_prefix("analyse ") {
            self.analyse(alloc, words)
        } else if let Some(words) = line.strip_prefix("decide ") {
            decided_text(alloc, self.keeper.state(), words)
        } else if let Some(words) = line.strip_prefix("check ") {
            checked_text(alloc, self.keeper.state(), words)
        } else {
            self.answer(alloc, line)
        }
    }

    // A table is tried, as the solver tells it.
    fn solve(&mut self, alloc: Global, words: &str) -> Option<String> {
        match table_told(alloc, self.keeper.state(), words) {
            Some((board, table)) => {
                let command = Command::Solved { board, table };
                answer_text(alloc, &self.keeper.submit_found(&(), &command))
            }
            None => None,
        }
    }

    // What cards cost is tried, as the solver tells it.
    fn analyse(&mut self, alloc: Global, words: &str) -> Option<String> {
        match costs_told(alloc, self.keeper.state(), words) {
            Some((cell, costs)) => {
                let command = Command::Analysed { cell, costs };
                answer_text(alloc, &self.keeper.submit_found(&(), &command))
            }
            None => None,
        }
    }

    // The answer to a message.
    fn answer(&mut self, alloc: Global, line: &str) -> Option<String> {
        match read_script_request(alloc, line.as_bytes(), self.keeper.edition()) {
            Ok(said) => {
                answer_request(&(), alloc, &mut self.keeper, said.user, &said.request).ok()
            }
            Err(_) => None,
        }
    }
}

// What the solver is answered.
fn answer_text(alloc: Global, answer: &Answer) -> Option<String> {
    match answer {
        Answer::Accepted => String::from_str(alloc, "ok").ok(),
        Answer::Refused(refusal) => refusal_text(alloc, refusal),
    }
}

fn refusal_text(alloc: Global, refusal: &Refusal) -> Option<String> {
    format!(in alloc; "{refusal:?}").ok()
}
