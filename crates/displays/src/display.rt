//! A reader of the copy that is shown.

ghost use Rattle.std.specs.Prelude.{◌≡◌, ◌<◌, ◌↔◌, List, [], length, true, false, IfOk, IfErr, OnErr, Err, IfSome, IfNone, IsNone};
ghost use mathlib.Core.List.{IsPrefix};
ghost use Rattle.session_commands.specs.declared.entry.Entry.{Entry};
ghost use Rattle.history.specs.Prefixes.{Prefix, prefix_in, entries_of};
ghost use Rattle.published_view.specs.declared.query_fault.QueryFault.TheVariants as fault;
ghost use Rattle.published_view.specs.View.{reply_after, digest_after};
ghost use Rattle.displays.specs.Copies.{IsPublished};
ghost use Rattle.displays.specs.Publishing.{Receipted, longer};
ghost use Rattle.displays.specs.Reading.{GetsAnAnswer, NoForeknowledge};

use crate::publisher::Publisher;
use crate::receipt::Receipt;
use crate::rule::{CopyReader, Looks, Server};
use core::mem::replace_with;
use history::HistoryPrefix;
use published_view::{NoEntry, QueryFault};
use session_queries::{Query, Reply};
use session_roles::Edition;
use std::alloc::{AllocError, Global};
use std::marker::Model;
use user_names::{Digest, Name};

/// Answers queries by the copy that is shown. Contracts see it as the publications that it has seen or been told of: no
/// answer is older.
pub struct Display<N: Server> {
    reader: CopyReader<N>,
    prefix: HistoryPrefix,
    // Kept beside the copies, since a display may be refused entry.
    edition: Edition,
}

// It is written out, so that a caller does not prove again how each part is dropped.
impl<N: Server> Drop for Display<N> {
    fn drop(self) {
        let Display {
            reader: _,
            prefix: _,
            edition: _,
        } = self;
    }
}

impl<N: Server> Model for Display<N> {
    ghost use Rattle.std.specs.Prelude.{◌≡◌, List};
    ghost use Rattle.session_commands.specs.declared.entry.Entry.{Entry};
    ghost use Rattle.displays.specs.Copies.{IsPublished, publications_code};

    ghost Value = { List (List Entry) };

    ghost coded = { publications_code };

    ghost view = { λ d. d.prefix.publications };

    ghost invariant = { λ d. (d.prefix.history ≡ N.history) × IsPublished N.opening d.prefix.publications
        × (d.edition ≡ N.opening.public.edition) };
}

impl<N: Server> Display<N> {
    pub(crate) fn over(reader: CopyReader<N>, prefix: HistoryPrefix, edition: Edition) -> Display<N>
        requires prefix { prefix ≡ prefix_in N.history [] }
        requires edition { edition ≡ N.opening.public.edition }
        ensures { result ≡ [] }
    {
        Display {
            reader,
            prefix,
            edition,
        }
    }

    /// The edition of the policy that the session is of. It waits for nobody, and is told whatever the copies do.
    pub fn edition(&self) -> Edition
        ensures { result ≡ N.opening.public.edition }
    {
        self.edition
    }

    /// The reply to a user's query by the copy that is shown; the user wants no version older than `since`. It waits for
    /// nobody, and has then seen what the copy shows, also where memory is refused for an answer that nothing comes
    /// before.
    pub fn query(
        &mut self,
        alloc: Global,
        user: Name,
        query: &Query,
        since: u64,
    ) -> Result<Reply, QueryFault>
        ensures later { IsPrefix self.old self.new }
        ensures published { IsPublished N.opening self.new }
        ensures reply { IfOk result (λ reply.
            reply ≡ reply_after N.opening (entries_of self.new) user query.now since) }
        ensures none { result ≡ Err fault.NoEntry → self.new ≡ self.old }
        ensures memory { result ≡ Err fault.OutOfMemory →
            GetsAnAnswer N.opening (entries_of self.new) user query.now since }
    {
        let asked = replace_with(&mut self.reader, (), |reader, ()| {
            ask(reader, alloc, user, query, since)
        });
        match self.heard(asked) {
            Some(Ok(answer)) => Ok(answer),
            Some(Err(_)) => Err(QueryFault::OutOfMemory),
            None => Err(QueryFault::NoEntry),
        }
    }

    /// The digest of the token with which a user signs in, by the copy that is shown. It takes no memory and waits for
    /// nobody.
    pub fn digest(&mut self, name: Name) -> Result<Option<Digest>, NoEntry>
        ensures later { IsPrefix self.old self.new }
        ensures published { IsPublished N.opening self.new }
        ensures digest { IfOk result (λ digest. digest ≡ digest_after N.opening (entries_of self.new) name) }
        ensures none { OnErr result (self.new ≡ self.old) }
    {
        let asked = replace_with(&mut self.reader, name, ask_digest);
        match self.heard(asked) {
            Some(digest) => Ok(digest),
            None => Err(NoEntry),
        }
    }

    /// From now on no answer is older than what the receipt tells. It takes no memory and waits for nobody. Where a user
    /// was shown something of a board before, the receipt tells of no result of that board that was then entered or
    /// confirmed where the user sits.
    pub fn learn(&mut self, receipt: &Receipt<N>)
        ensures longer { self.new ≡ longer self.old receipt.now.published }
        ensures own { IsPrefix self.old self.new }
        ensures told { IsPrefix receipt.now.published self.new }
        ensures published { IsPublished N.opening self.new }
        ensures no_foreknowledge { (seen : List (List Entry)) → IsPrefix seen self.old →
            NoForeknowledge N.opening (entries_of seen) (entries_of receipt.now.published) }
    {
        self.go_to_longer(receipt.prefix());
    }

    /// Whether what it has seen is among what is published. Of the two one begins the other.
    pub fn is_behind(&self, publisher: &Publisher<N>) -> bool
        ensures begins { (result ≡ true) ↔ IsPrefix self.now publisher.now.published }
        ensures ahead { result ≡ false → IsPrefix publisher.now.published self.now }
        ensures published { IsPublished N.opening self.now }
    {
        let told = publisher.tell();
        let published = told.prefix();
        if self.prefix.count() <= publisher.publications() {
            self.prefix.begins(published);
            return true;
        }
        published.begins(&self.prefix);
        false
    }

    // What a copy told, if one was entered that isn't older than what was learned; then it has seen what that copy shows.
    // A copy is shown before a receipt tells of it, so it is never behind what was learned.
    fn heard<T: Drop>(&mut self, asked: Option<(T, HistoryPrefix)>) -> Option<T>
        requires history { IfSome asked (λ t. t.1.history ≡ N.history) }
        requires published { IfSome asked (λ t. IsPublished N.opening t.1.publications) }
        ensures published { IsPublished N.opening self.new }
        ensures later { IsPrefix self.old self.new }
        ensures told { IfSome result (λ told. IfSome asked (λ t. (told ≡ t.0) × (self.new ≡ t.1.publications))) }
        ensures only { IfNone asked (IsNone result) }
        ensures none { IfNone result (self.new ≡ self.old) }
        ensures older { IfNone result (IfSome asked (λ t. length t.1.publications < length self.old)) }
    {
        let seen = self.prefix.count();
        let (told, prefix) = asked?;
        if prefix.count() < seen {
            return None;
        }
        self.prefix.begins(&prefix);
        self.prefix = prefix;
        Some(told)
    }

    // Has seen the longer of its own publications and those that were told.
    fn go_to_longer(&mut self, told: &HistoryPrefix)
        requires history { told.now.history ≡ N.history }
        requires published { IsPublished N.opening told.now.publications }
        ensures longer { self.new ≡ longer self.old told.now.publications }
        ensures own { IsPrefix self.old self.new }
        ensures told { IsPrefix told.now.publications self.new }
        ensures published { IsPublished N.opening self.new }
    {
        if self.prefix.count() < told.count() {
            self.prefix.begins(told);
            self.prefix = told.again();
        } else {
            told.begins(&self.prefix);
        }
    }
}

// Enters the copy that is shown, asks it, and leaves it.
fn ask<N: Server>(
    reader: CopyReader<N>,
    alloc: Global,
    user: Name,
    query: &Query,
    since: u64,
) -> (
    CopyReader<N>,
    Option<(Result<Reply, AllocError>, HistoryPrefix)>,
)
    ensures history { IfSome result.1 (λ t. t.1.history ≡ N.history) }
    ensures published { IfSome result.1 (λ t. IsPublished N.opening t.1.publications) }
    ensures reply { IfSome result.1 (λ t. IfOk t.0 (λ reply.
        reply ≡ reply_after N.opening (entries_of t.1.publications) user query.now since)) }
    ensures memory { IfSome result.1 (λ t. IfErr t.0 (λ _.
        GetsAnAnswer N.opening (entries_of t.1.publications) user query.now since)) }
{
    match reader.enter_as::<Looks<N>>() {
        Ok(reading) => {
            let copy = reading.get();
            let answer = copy.answer(alloc, user, query, since);
            let prefix = copy.prefix().again();
            (reading.leave(), Some((answer, prefix)))
        }
        Err(reader) => (reader, None),
    }
}

// Enters the copy that is shown, looks a user's digest up, and leaves it.
fn ask_digest<N: Server>(
    reader: CopyReader<N>,
    name: Name,
) -> (CopyReader<N>, Option<(Option<Digest>, HistoryPrefix)>)
    ensures history { IfSome result.1 (λ t. t.1.history ≡ N.history) }
    ensures published { IfSome result.1 (λ t. IsPublished N.opening t.1.publications) }
    ensures digest { IfSome result.1 (λ t. t.0 ≡ digest_after N.opening (entries_of t.1.publications) name) }
{
    match reader.enter_as::<Looks<N>>() {
        Ok(reading) => {
            let copy = reading.get();
            let digest = copy.digest(name);
            let prefix = copy.prefix().again();
            (reading.leave(), Some((digest, prefix)))
        }
        Err(reader) => (reader, None),
    }
}
