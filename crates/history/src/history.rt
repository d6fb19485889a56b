//! The word that counts the publications, and beginnings of the history.

ghost use Rattle.std.specs.Prelude.{◌≡◌, ◌<◌, ◌≤◌, ◌^◌, ◌++◌, ◌∷◌, [], length, MatchBool};
ghost use mathlib.Core.List.{IsPrefix};
ghost use Rattle.history.specs.Counting.{head_of};
ghost use Rattle.history.specs.Prefixes.{Prefix, prefix_in};

use crate::rule::{Add, CountRule, NothingTraded};
use logbook::{Offer, Seen, Start, Word};
use session_commands::Entry;
use std::marker::Model;

/// What adds to a history: a word with the number of its publications. Contracts see which history it is.
#[derive(Drop)]
pub struct Head {
    word: Word<[Entry; 0], u64, CountRule>,
}

impl Model for Head {
    ghost use Rattle.std.specs.Prelude.{◌≡◌};
    ghost use Rattle.logbook.specs.Pages.{Book};
    ghost use Rattle.history.specs.Counting.{head_of};

    ghost Value = { Book };

    ghost view = { λ h. h.word.book };

    ghost invariant = { λ h. h.word ≡ head_of h.word.book };
}

/// A beginning that the history has: so many publications, each with its entries. It is a number and no more.
#[derive(Drop)]
pub struct HistoryPrefix {
    count: u64,
    seen: Seen<[Entry; 0], u64, CountRule>,
}

impl Model for HistoryPrefix {
    ghost use Rattle.std.specs.Prelude.{◌≡◌, length};
    ghost use Rattle.history.specs.Prefixes.{Prefix, prefix_code};

    ghost Value = { Prefix };

    ghost coded = { prefix_code };

    ghost view = { λ m. record { history = m.seen.book; publications = m.seen.log } };

    ghost invariant = { λ m. m.count ≡ length m.seen.log };
}

/// A history with no publications. Contracts see which history it is.
#[derive(Drop)]
pub struct History {
    head: Head,
    prefix: HistoryPrefix,
}

impl Model for History {
    ghost use Rattle.std.specs.Prelude.{◌≡◌, []};
    ghost use Rattle.logbook.specs.Pages.{Book};
    ghost use Rattle.history.specs.Prefixes.{prefix_in};

    ghost Value = { Book };

    ghost view = { λ h. h.head };

    ghost invariant = { λ h. h.prefix ≡ prefix_in h.head [] };
}

impl History {
    /// A history of its own. It takes no memory.
    pub fn new() -> History {
        let (seen, mut first, _second) = Seen::open(Start::alone(), 0, 0);
        History {
            head: Head {
                word: Word::tracked(0, &mut first),
            },
            prefix: HistoryPrefix { count: 0, seen },
        }
    }

    /// What adds to the history, and its beginning without a publication.
    pub fn into_parts(self) -> (Head, HistoryPrefix)
        ensures head { result.0 ≡ self }
        ensures prefix { result.1 ≡ prefix_in self [] }
    {
        let History { head, prefix } = self;
        (head, prefix)
    }
}

impl HistoryPrefix {
    /// How many publications it has.
    pub fn count(&self) -> u64
        ensures { result ≡ length self.now.publications }
    {
        self.count
    }

    /// The same beginning once more. It takes no memory.
    pub fn again(&self) -> HistoryPrefix
        ensures { result ≡ self.now }
    {
        HistoryPrefix {
            count: self.count,
            seen: self.seen.again(),
        }
    }

    /// Of two beginnings of one history, the one that is not longer begins the other. It does nothing: the clause is
    /// what it is for.
    pub fn begins(&self, other: &HistoryPrefix)
        requires history { other.now.history ≡ self.now.history }
        requires shorter { length self.now.publications ≤ length other.now.publications }
        ensures { IsPrefix self.now.publications other.now.publications }
    {
        let mut both = self.seen.again();
        both.learn(&other.seen);
    }

    /// Adds a publication behind all that this beginning has, and answers whether it did: it doesn't where the history is
    /// longer already.
    pub fn add(&mut self, head: &Head, entries: &Vec<Entry>) -> bool
        requires history { head.now ≡ self.old.history }
        requires room { length self.old.publications < 2 ^ 62 }
        ensures { MatchBool result
            (self.new ≡ prefix_in self.old.history (self.old.publications ++ entries.now.items ∷ []))
            (self.new ≡ self.old) }
    {
        let mut seen = self.seen.again();
        let mut offer: Offer<[Entry; 0], u64, CountRule, NothingTraded> = seen.plain::<
            NothingTraded,
            Vec<Entry>,
            Add,
        >(entries);
        let mut pen = seen.no_pen();
        let found = head.word.compare_exchange::<Add, NothingTraded>(
            self.count,
            self.count + 1,
            &mut seen,
            &mut offer,
            &mut pen,
        );
        if found != self.count {
            return false;
        }
        self.count += 1;
        self.seen = seen;
        true
    }
}
