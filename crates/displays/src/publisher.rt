//! The writer of the copies.

ghost use Rattle.std.specs.Prelude.{◌≡◌, ◌^◌, ◌≤◌, ◌<◌, ◌+◌, ◌++◌, ◌∷◌, ◌⊎◌, [], All, Err, drop, length, fold, IfOk, MatchResult};
ghost use Rattle.displays.specs.declared.publisher.OpenError.TheVariants.{NoPlace};
ghost use Rattle.session_book.specs.Journal.{IsAccepted, MayFollow};
ghost use Rattle.history.specs.Prefixes.{Prefix, prefix_in, entries_of};
ghost use Rattle.published_view.specs.View.{StandsFor};
ghost use Rattle.displays.specs.Copies.{ShowsPublished, IsPublished, with_addition};
ghost use Rattle.displays.specs.Publishing.{Outgoing, Receipted, after_publishing, receipted, most_places, nothing_outgoing};

use crate::display::Display;
use crate::receipt::Receipt;
use crate::rule::{CopyFactory, CopyWriter, Looks, Server};
use crate::view_copy::{Publication, ViewCopy};
use core::mem::replace_with;
use history::{Head, History, HistoryPrefix};
use published_view::View;
use session_commands::Entry;
use session_roles::Edition;
use std::alloc::{AllocError, Global};
use std::fmt;
use std::marker::Model;
use std::mem::replace;
use std::sync::Wait;
use thiserror::Error;

/// How many displays a server has at most.
pub const MOST_DISPLAYS: usize = 32;

/// Why the two copies aren't opened.
#[derive(Clone, Copy, Debug, Error)]
pub enum OpenError {
    /// There are to be no displays or more than 32, or no place was found for one.
    NoPlace,
    /// Memory was refused.
    OutOfMemory,
}

/// The variant's name.
impl fmt::Display for OpenError {
    fn fmt<W: fmt::Write>(&self, f: &mut fmt::Formatter<W>) -> fmt::Result {
        fmt::Debug::fmt(self, f)
    }
}

/// Shows entries to displays, a publication at a time. Contracts see what is published and what is pending. It can't be
/// dropped: `close` ends it.
pub struct Publisher<N: Server> {
    writer: CopyWriter<N>,
    head: Head,
    pending: Vec<Entry>,
    // How many entries are published.
    version: usize,
    alloc: Global,
}

impl<N: Server> Model for Publisher<N> {
    ghost use Rattle.std.specs.Prelude.{◌≡◌, ◌++◌, length, drop, fold};
    ghost use Rattle.session_book.specs.Journal.{IsAccepted};
    ghost use Rattle.history.specs.Prefixes.{entries_of};
    ghost use Rattle.displays.specs.Copies.{ShowsPublished, with_addition};
    ghost use Rattle.displays.specs.Publishing.{Outgoing, outgoing_code};

    ghost Value = { Outgoing };

    ghost coded = { outgoing_code };

    // What is published is what the copy stands for that readers enter.
    ghost view = { λ p. record {
      published = p.writer.desk.shown.value.prefix.publications;
      pending = p.pending.items;
    } };

    ghost invariant = { λ p. ShowsPublished N.opening N.history p.writer.desk.shown.value
        × (p.head ≡ N.history)
        × ((fold with_addition p.writer.desk.shown.value (drop p.writer.behind p.writer.log.items)).shown
        ≡ p.writer.desk.shown.value.shown)
        × IsAccepted N.opening (entries_of p.writer.desk.shown.value.prefix.publications ++ p.pending.items)
        × (p.version ≡ length (entries_of p.writer.desk.shown.value.prefix.publications)) };
}

impl<N: Server> Publisher<N> {
    /// Adds an entry to what is pending. No display sees it before it is published.
    pub fn append(&mut self, entry: &Entry) -> Result<(), AllocError>
        requires { MayFollow N.opening (entries_of self.old.published ++ self.old.pending) entry.now }
        ensures { MatchResult result
            (λ _. self.new ≡ record self.old { pending = self.old.pending ++ entry.now ∷ [] })
            (λ _. self.new ≡ self.old) }
    {
        match self.pending.push(*entry) {
            Ok(()) => Ok(()),
            Err(_) => Err(AllocError),
        }
    }

    /// What is still to be published. It may follow what is published.
    pub fn pending(&self) -> &[Entry]
        ensures entries { result.now ≡ self.now.pending }
        ensures accepted { IsAccepted N.opening (entries_of self.now.published ++ self.now.pending) }
    {
        &self.pending
    }

    /// Drops what is pending: no display ever sees it.
    pub fn drop_pending(&mut self)
        ensures { self.new ≡ record self.old { pending = [] } }
    {
        self.pending.clear();
    }

    /// Shows what is pending, at one exchange of the copies. It waits for those that still read the other copy.
    pub fn publish<R: Wait>(&mut self, rt: &R) -> Receipt<N>
        requires { 0 < length self.old.pending }
        ensures line { self.new ≡ after_publishing self.old }
        ensures receipt { result ≡ receipted (length (entries_of self.old.published) + 1)
            (length (entries_of self.new.published)) self.new.published }
        ensures published { IsPublished N.opening self.new.published }
    {
        let entries = replace(&mut self.pending, Vec::new(self.alloc));
        let count = entries.as_slice().len();
        show_too(rt, &self.head, &mut self.writer, entries);
        let first = self.version + 1;
        self.version += count;
        Receipt::of(
            first,
            self.version,
            self.version,
            self.writer.published().prefix().again(),
        )
    }

    /// Tells what is published now, and nothing of its own. It waits for nobody.
    pub fn tell(&self) -> Receipt<N>
        ensures receipt { result ≡ receipted 0 0 self.now.published }
        ensures published { IsPublished N.opening self.now.published }
    {
        Receipt::of(0, 0, self.version, self.writer.published().prefix().again())
    }

    /// How often it has published. No publication is empty.
    pub fn publications(&self) -> u64
        ensures count { result ≡ length self.now.published }
        ensures few { result ≤ length (entries_of self.now.published) }
        ensures published { IsPublished N.opening self.now.published }
    {
        self.writer.published().prefix().count()
    }

    /// Takes both copies back, and drops them. It may wait for readers, and takes no memory.
    pub fn close<R: Wait>(self, rt: &R) {
        let Publisher {
            writer,
            head,
            pending,
            version: _,
            alloc: _,
        } = self;
        drop(head);
        drop(pending);
        writer.take(rt);
    }
}

// Shows these entries behind all that are shown: they join the history, then the copies, of which the changed one is then
// shown.
fn show_too<N: Server, R: Wait>(
    rt: &R,
    head: &Head,
    writer: &mut CopyWriter<N>,
    entries: Vec<Entry>,
)
    requires head { head.now ≡ N.history }
    requires kept { ShowsPublished N.opening N.history writer.old.desk.shown.value }
    requires idle { (fold with_addition writer.old.desk.shown.value (drop writer.old.behind writer.old.log.items)).shown
        ≡ writer.old.desk.shown.value.shown }
    requires published { IsPublished N.opening (writer.old.desk.shown.value.prefix.publications ++ entries.items ∷ []) }
    ensures publications { writer.new.desk.shown.value.prefix.publications
        ≡ writer.old.desk.shown.value.prefix.publications ++ entries.items ∷ [] }
    ensures kept { ShowsPublished N.opening N.history writer.new.desk.shown.value }
    ensures none { drop writer.new.behind writer.new.log.items ≡ [] }
{
    let prefix = noted(rt, head, writer.published().prefix(), &entries);
    log(rt, writer, Publication::new(entries, prefix));
    replace_with(writer, rt, show);
}

// Adds a publication to the history, behind all that are published. Only a publisher has its history's head, so the first
// try does.
fn noted<R: Wait>(
    rt: &R,
    head: &Head,
    published: &HistoryPrefix,
    entries: &Vec<Entry>,
) -> HistoryPrefix
    requires history { head.now ≡ published.now.history }
    requires room { length published.now.publications < 2 ^ 62 }
    ensures { result ≡ prefix_in published.now.history (published.now.publications ++ entries.now.items ∷ []) }
{
    let mut prefix = published.again();
    for _ in rt.forever() {
        if prefix.add(head, entries) {
            return prefix;
        }
    }
    unreachable!()
}

// Gives a publication to the copies. Their log has had room since the opening, so the first try does.
fn log<N: Server, R: Wait>(rt: &R, writer: &mut CopyWriter<N>, mut op: Publication)
    ensures desk { writer.new.desk ≡ writer.old.desk }
    ensures pending { drop writer.new.behind writer.new.log.items
        ≡ drop writer.old.behind writer.old.log.items ++ op ∷ [] }
{
    for _ in rt.forever() {
        match writer.append(op) {
            Ok(()) => return,
            Err(back) => op = back,
        }
    }
    unreachable!()
}

// Exchanges the copies, of which the one has taken in what the log has for it.
fn show<N: Server, R: Wait>(writer: CopyWriter<N>, rt: &R) -> (CopyWriter<N>, ())
    requires { ShowsPublished N.opening N.history
        (fold with_addition writer.desk.shown.value (drop writer.behind writer.log.items)) }
    ensures shown { result.0.desk.shown.value
        ≡ fold with_addition writer.desk.shown.value (drop writer.behind writer.log.items) }
    ensures kept { ShowsPublished N.opening N.history result.0.desk.shown.value }
    ensures none { drop result.0.behind result.0.log.items ≡ [] }
{
    let (writer, result) = writer.publish_as::<Looks<N>, R>(rt);
    match result {
        Ok(()) => (writer, ()),
        Err(_) => unreachable!(),
    }
}

/// Makes the publisher of two views in which nothing is entered yet, and so many displays: 1 to 32. It waits only where it
/// is refused.
pub fn open_displays<N: Server, R: Wait>(
    rt: &R,
    alloc: Global,
    history: History,
    first: View,
    second: View,
    displays: usize,
) -> Result<(Publisher<N>, Vec<Display<N>>), OpenError>
    requires history { history ≡ N.history }
    requires first { StandsFor N.opening [] first }
    requires second { StandsFor N.opening [] second }
    ensures publisher { IfOk result (λ t. t.0 ≡ nothing_outgoing) }
    ensures count { IfOk result (λ t. length t.1.items ≡ displays) }
    ensures displays { IfOk result (λ t. All (λ d. d ≡ []) t.1.items) }
    ensures none { (displays ≡ 0) ⊎ (most_places < displays) → result ≡ Err NoPlace }
{
    if displays == 0 || displays > MOST_DISPLAYS {
        return Err(OpenError::NoPlace);
    }
    let (head, prefix) = history.into_parts();
    let edition = first.edition();
    let one = ViewCopy::new(first, prefix.again());
    let other = ViewCopy::new(second, prefix.again());
    let Ok(mut writer) = CopyWriter::<N>::new(alloc, one, other, displays) else {
        return Err(OpenError::OutOfMemory);
    };
    // A publication without an entry, which makes the log's room: no later one is refused.
    if writer
        .append(Publication::new(Vec::new(alloc), prefix.again()))
        .is_err()
    {
        writer.take(rt);
        return Err(OpenError::OutOfMemory);
    }
    match all_displays(alloc, writer.factory(), &prefix, edition, displays) {
        Ok(all) => {
            let publisher = Publisher {
                writer,
                head,
                pending: Vec::new(alloc),
                version: 0,
                alloc,
            };
            Ok((publisher, all))
        }
        Err(error) => {
            writer.take(rt);
            Err(error)
        }
    }
}

// So many displays over the copies.
fn all_displays<N: Server>(
    alloc: Global,
    from: &CopyFactory<N>,
    prefix: &HistoryPrefix,
    edition: Edition,
    count: usize,
) -> Result<Vec<Display<N>>, OpenError>
    requires prefix { prefix.now ≡ prefix_in N.history [] }
    requires edition { edition ≡ N.opening.public.edition }
    ensures count { IfOk result (λ v. length v.items ≡ count) }
    ensures displays { IfOk result (λ v. All (λ d. d ≡ []) v.items) }
{
    let mut all = Vec::new(alloc);
    for _ in 0..count {
        let Ok(reader) = from.reader() else {
            return Err(OpenError::NoPlace);
        };
        if all
            .push(Display::over(reader, prefix.again(), edition))
            .is_err()
        {
            return Err(OpenError::OutOfMemory);
        }
    }
    Ok(all)
}
