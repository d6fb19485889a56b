//! What a publisher tells of a publication.

ghost use Rattle.std.specs.Prelude.{◌≡◌, length};
ghost use Rattle.history.specs.Prefixes.{entries_of};
ghost use Rattle.displays.specs.Copies.{IsPublished};
ghost use Rattle.displays.specs.Publishing.{Receipted, receipted};

use crate::rule::Server;
use history::HistoryPrefix;
use std::marker::{Model, PhantomData};

/// The numbers of a publication's first and last entry, from 1, or twice 0 where nothing was published; and all that was
/// published then.
#[derive(Drop)]
pub struct Receipt<N: Server> {
    first: usize,
    last: usize,
    version: usize,
    prefix: HistoryPrefix,
    of: PhantomData<N>,
}

impl<N: Server> Model for Receipt<N> {
    ghost use Rattle.std.specs.Prelude.{◌≡◌, length};
    ghost use Rattle.history.specs.Prefixes.{entries_of};
    ghost use Rattle.displays.specs.Copies.{IsPublished};
    ghost use Rattle.displays.specs.Publishing.{Receipted, receipted_code};

    ghost Value = { Receipted };

    ghost coded = { receipted_code };

    ghost view = { λ r. record { first = r.first; last = r.last; published = r.prefix.publications } };

    ghost invariant = { λ r. (r.prefix.history ≡ N.history)
        × (r.version ≡ length (entries_of r.prefix.publications))
        × IsPublished N.opening r.prefix.publications };
}

impl<N: Server> Receipt<N> {
    pub(crate) fn of(first: usize, last: usize, version: usize, prefix: HistoryPrefix) -> Receipt<N>
        requires history { prefix.history ≡ N.history }
        requires version { version ≡ length (entries_of prefix.publications) }
        requires published { IsPublished N.opening prefix.publications }
        ensures { result ≡ receipted first last prefix.publications }
    {
        Receipt {
            first,
            last,
            version,
            prefix,
            of: PhantomData,
        }
    }

    pub(crate) fn prefix(&self) -> &HistoryPrefix
        ensures publications { result.now.publications ≡ self.now.published }
        ensures history { result.now.history ≡ N.history }
        ensures published { IsPublished N.opening self.now.published }
    {
        &self.prefix
    }

    /// The number of the first entry, or 0.
    pub fn first(&self) -> usize
        ensures { result ≡ self.now.first }
    {
        self.first
    }

    /// The number of the last entry, or 0.
    pub fn last(&self) -> usize
        ensures { result ≡ self.now.last }
    {
        self.last
    }

    /// The version of all that was published then: how many entries they are.
    pub fn version(&self) -> usize
        ensures version { result ≡ length (entries_of self.now.published) }
        ensures published { IsPublished N.opening self.now.published }
    {
        self.version
    }
}
