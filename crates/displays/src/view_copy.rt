//! What there are two of, and what each of them takes in.

ghost use Rattle.std.specs.Prelude.{◌≡◌, IfOk, IfErr, None, fold};
ghost use Rattle.session_state.specs.Readers.{digest_of};
ghost use Rattle.session_state.specs.SessionState.{viewer_of};
ghost use Rattle.session_queries.specs.Query.{fact_of};
ghost use Rattle.published_view.specs.View.{seen_after};
ghost use Rattle.published_view.specs.Reply.{before_answer, reply_of};
ghost use Rattle.displays.specs.Copies.{Copied, Addition, copied, with_addition, addition};

use history::HistoryPrefix;
use left_right::Absorb;
use published_view::View;
use session_commands::Entry;
use session_queries::{Query, Reply};
use std::alloc::{AllocError, Global};
use std::marker::Model;
use user_names::{Digest, Name};

/// A view, and the publications for which it stands.
pub struct ViewCopy {
    view: View,
    prefix: HistoryPrefix,
}

// It is written out, so that a caller does not prove again how each part is dropped.
impl Drop for ViewCopy {
    fn drop(self) {
        let ViewCopy { view: _, prefix: _ } = self;
    }
}

impl Model for ViewCopy {
    ghost use Rattle.displays.specs.Copies.{Copied, copied_code};

    ghost Value = { Copied };

    ghost coded = { copied_code };

    ghost view = { λ c. record { shown = c.view; prefix = c.prefix } };
}

/// The entries of one publication, and all publications with it.
#[derive(Drop)]
pub struct Publication {
    entries: Vec<Entry>,
    prefix: HistoryPrefix,
}

impl Model for Publication {
    ghost use Rattle.displays.specs.Copies.{Addition, addition_code};

    ghost Value = { Addition };

    ghost coded = { addition_code };

    ghost view = { λ p. record { entries = p.entries.items; prefix = p.prefix } };
}

impl Publication {
    pub(crate) fn new(entries: Vec<Entry>, prefix: HistoryPrefix) -> Publication
        ensures { result ≡ addition entries.items prefix }
    {
        Publication { entries, prefix }
    }
}

impl ViewCopy {
    pub(crate) fn new(view: View, prefix: HistoryPrefix) -> ViewCopy
        ensures { result ≡ copied view prefix }
    {
        ViewCopy { view, prefix }
    }

    pub(crate) fn prefix(&self) -> &HistoryPrefix
        ensures { result.now ≡ self.now.prefix }
    {
        &self.prefix
    }

    pub(crate) fn answer(
        &self,
        alloc: Global,
        user: Name,
        query: &Query,
        since: u64,
    ) -> Result<Reply, AllocError>
        ensures reply { IfOk result (λ reply.
            reply ≡ reply_of self.now.shown.state self.now.shown.version user query.now since) }
        ensures memory { IfErr result (λ _.
            before_answer self.now.shown.state.public self.now.shown.version (viewer_of self.now.shown.state user)
            (fact_of query.now) since ≡ None) }
    {
        self.view.answer(alloc, user, query, since)
    }

    pub(crate) fn digest(&self, name: Name) -> Option<Digest>
        ensures { result ≡ digest_of self.now.shown.state name }
    {
        self.view.digest(name)
    }
}

impl Absorb<Publication> for ViewCopy {
    type State = ViewCopy;

    ghost state = { λ c. c };

    ghost applied = { with_addition };

    ghost never_fails = { Unit {0} };

    fn absorb_first(
        &mut self,
        operation: &Publication,
        other: &ViewCopy,
    ) -> Result<(), AllocError> {
        absorb_all(&mut self.view, operation.entries.as_slice(), &other.view);
        self.prefix = operation.prefix.again();
        Ok(())
    }
}

// Takes in one entry after another, as a view does.
fn absorb_all(view: &mut View, entries: &[Entry], other: &View)
    ensures { view.new ≡ fold seen_after view.old entries.now }
{
    for entry in entries {
        let Ok(()) = view.absorb_first(entry, other) else {
            unreachable!()
        };
    }
}
