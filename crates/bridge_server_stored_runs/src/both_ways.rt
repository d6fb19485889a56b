//! A session in which every question is answered both ways: from what a view keeps, and afresh from the book's state. The text
//! begins with a session object, a line with the names of those who ask, and lines with messages that ask something;
//! after an empty line come messages with commands. After each accepted command, and before the first, each question is
//! asked for each name. A reply that isn't the same both ways is told at once, and at the end how many were compared.

use opened_session::{OpenedSession, open_session};
use published_view::{View, answer_afresh};
use reply_texts::reply_text;
use session_book::Book;
use session_commands::{Actor, Command};
use session_queries::Query;
use std::alloc::Global;
use std::io::Write;
use user_names::Name;
use wire::{ScriptRequest, UserRequest, read_script_request};

/// Answers both ways, and whether it could.
pub(crate) fn answer_both_ways<O: Write>(alloc: Global, text: &str, writer: &mut O) -> bool {
    let Some((object, text)) = text.split_once('\n') else {
        return false;
    };
    let Some((names, text)) = text.split_once('\n') else {
        return false;
    };
    let Some((questions, messages)) = text.split_once("\n\n") else {
        return false;
    };
    let Some(mut session) = BothWays::open(alloc, object) else {
        return false;
    };
    let asked = Asked { names, questions };
    session.run(alloc, &asked, messages, writer) && session.write_end(writer)
}

/// The names of those who ask, and the messages that ask something.
#[derive(Clone, Copy)]
struct Asked<'a> {
    names: &'a str,
    questions: &'a str,
}

/// A book and a view of it, and how much was compared.
#[derive(Drop)]
struct BothWays {
    book: Book,
    view: View,
    accepted: usize,
    compared: usize,
}

impl BothWays {
    // The session of an object, if it opens one.
    fn open(alloc: Global, object: &str) -> Option<BothWays> {
        let Ok(OpenedSession { book, .. }) = open_session(alloc, object.as_bytes(), None) else {
            return None;
        };
        let Ok(view) = View::open(alloc, &book) else {
            return None;
        };
        Some(BothWays {
            book,
            view,
            accepted: 0,
            compared: 0,
        })
    }

    // Takes each message's commands, and compares before the first and after each that is accepted.
    fn run<O: Write>(
        &mut self,
        alloc: Global,
        asked: &Asked,
        messages: &str,
        writer: &mut O,
    ) -> bool {
        if !self.compare(alloc, asked, writer) {
            return false;
        }
        for message in messages.lines() {
            if !self.take(alloc, asked, message, writer) {
                return false;
            }
        }
        true
    }

    // Tries the commands of a message.
    fn take<O: Write>(
        &mut self,
        alloc: Global,
        asked: &Asked,
        message: &str,
        writer: &mut O,
    ) -> bool {
        let Ok(said) = read_script_request(alloc, message.as_bytes(), self.view.edition()) else {
            return false;
        };
        let UserRequest::Batch { commands } = &said.request else {
            return false;
        };
        for command in commands.as_slice() {
            if self.enter(said.user, command) && !self.compare(alloc, asked, writer) {
                return false;
            }
        }
        true
    }

    // Enters a command, if it isn't refused.
    fn enter(&mut self, user: Name, command: &Command) -> bool {
        let Ok(entry) = self.book.check(Actor::User(user), command) else {
            return false;
        };
        self.view.absorb(&entry);
        self.book.commit(entry);
        self.accepted = self.accepted.saturating_add(1);
        true
    }

    // Asks each question for each name both ways.
    fn compare<O: Write>(&mut self, alloc: Global, asked: &Asked, writer: &mut O) -> bool {
        for question in asked.questions.lines() {
            if !self.compare_question(alloc, asked, question, writer) {
                return false;
            }
        }
        true
    }

    fn compare_question<O: Write>(
        &mut self,
        alloc: Global,
        asked: &Asked,
        question: &str,
        writer: &mut O,
    ) -> bool {
        let Ok(
            ScriptRequest {
                request: UserRequest::Query { query, since },
                ..
            },
        ) = read_script_request(alloc, question.as_bytes(), self.view.edition())
        else {
            return false;
        };
        for name in asked.names.split(" ") {
            match self.is_same(alloc, name, &query, since) {
                Some(true) => self.compared = self.compared.saturating_add(1),
                Some(false) => {
                    if writeln!(writer, "not the same for {name}: {question}").is_err() {
                        return false;
                    }
                }
                None => return false,
            }
        }
        true
    }

    // Whether the reply to a user is the same both ways.
    fn is_same(&self, alloc: Global, name: &str, query: &Query, since: u64) -> Option<bool> {
        let Ok(user) = Name::new(name) else {
            return None;
        };
        let Ok(kept) = self.view.answer(alloc, user, query, since) else {
            return None;
        };
        let Ok(afresh) = answer_afresh(alloc, &self.book, user, query, since) else {
            return None;
        };
        match (reply_text(alloc, &kept), reply_text(alloc, &afresh)) {
            (Ok(kept), Ok(afresh)) => Some(kept == afresh),
            _ => None,
        }
    }

    fn write_end<O: Write>(&self, writer: &mut O) -> bool {
        let (accepted, compared) = (self.accepted, self.compared);
        writeln!(writer, "{accepted} commands, {compared} replies the same").is_ok()
    }
}
